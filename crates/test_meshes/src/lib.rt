// Meshes of levels 0 and 1, one after the other, that keep document 01's rule: the vertices of a level stand in sixes,
// and each has the other five of its six for neighbours. No answer here depends on where the vertices are. A sixth
// place, which is not read, holds a number too.
#![tactic(auto)]

ghost use Rattle.std.specs.Prelude.{◌≡◌, ℕ, ◌<◌, replicate, slice_index};
ghost use Rattle.std.specs.Float.{binary64};
ghost use Rattle.std.specs.Float.Ieee.{of_bits};
ghost use Rattle.mesh.specs.Mesh.{mesh_of};
ghost use Rattle.mesh.specs.Lent.{lent};
ghost use Rattle.test_meshes.specs.Seats.{seated};

use mesh::Mesh;

#[derive(Clone, Copy)]
pub struct Meshes {
    vertices: [f64; 162],
    counts: [u8; 54],
    neighbours: [u16; 324],
    angles: [f64; 324],
}

// The neighbour at a place, six places a vertex.
fn neighbour(i: usize) -> u16
    ensures { result ≡ seated i }
{
    let j = if i < 72 { i } else { i - 72 };
    ((j / 36 * 6 + (j / 6 + j % 6 + 1) % 6) % 65536) as u16
}

impl Meshes {
    pub fn new() -> Meshes
        ensures vertices { result.vertices ≡ replicate 162 (of_bits binary64 0x3FF0_0000_0000_0000) }
        ensures counts { result.counts ≡ replicate 54 5 }
        ensures neighbours { (k : ℕ) → k < 324 → slice_index result.neighbours k ≡ seated k }
        ensures angles { result.angles ≡ replicate 324 (of_bits binary64 0x3FF0_0000_0000_0000) }
    {
        let mut neighbours = [0; 324];
        for i in 0..324 {
            neighbours[i] = neighbour(i);
        }
        Meshes {
            vertices: [1.0; 162],
            counts: [5; 54],
            neighbours,
            angles: [1.0; 324],
        }
    }

    pub fn lent(&self) -> Mesh<'_>
        ensures { lent result ≡ mesh_of self.now.vertices self.now.counts self.now.neighbours self.now.angles }
    {
        Mesh {
            vertices: &self.vertices,
            counts: &self.counts,
            neighbours: &self.neighbours,
            angles: &self.angles,
        }
    }
}
