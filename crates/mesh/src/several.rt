// The mesh rule over meshes of several levels, which are lent one after another.
ghost use Rattle.std.specs.Prelude.{◌≡◌, ◌&&◌, suc, length};
ghost use Rattle.std.proofs.Math.Seq.{slice};
ghost use Rattle.mesh.specs.Levels.{vertex_count, vertices_below};
ghost use Rattle.mesh.specs.Mesh.{level_part, mesh_room, mesh_long, meshes_keep, neighbour_total, links_room, meshes_linked};
ghost use Rattle.mesh.specs.Lent.{lent};

use crate::Mesh;
use crate::levels::{vertex_count, vertices_below};
use crate::rule::{degree, keeps_rule, links_kept, mesh_room};

// The entries of a list from one place to another, as far as there are any.
fn cut<T>(list: &[T], from: usize, to: usize) -> &[T]
    ensures { result.now ≡ slice from to list.now }
{
    let below = &list[..to.min(list.len())];
    &below[from.min(below.len())..]
}

impl Mesh<'_> {
    // The part of one level.
    pub fn level_part(&self, level: u8) -> Mesh<'_>
        ensures { lent result ≡ level_part level (lent self.now) }
    {
        let a = vertices_below(level) as usize;
        let b = a + vertex_count(level) as usize;
        Mesh {
            vertices: cut(self.vertices, 3 * a, 3 * b),
            counts: cut(self.counts, a, b),
            neighbours: cut(self.neighbours, 6 * a, 6 * b),
            angles: cut(self.angles, 6 * a, 6 * b),
        }
    }
}

// The lengths that the meshes of the levels from 0 to the top need.
pub fn meshes_room(
    top: u8,
    vertices: usize,
    counts: usize,
    neighbours: usize,
    angles: usize,
) -> bool
    ensures { result ≡ mesh_room (vertices_below (suc top)) vertices counts neighbours angles }
{
    let n = vertices_below(top) + vertex_count(top);
    mesh_room(n as u32, vertices, counts, neighbours, angles)
}

// The lists have the lengths that the meshes of the levels from 0 to the top need.
pub fn meshes_long(top: u8, mesh: &Mesh) -> bool
    ensures { result ≡ mesh_long (vertices_below (suc top)) (lent mesh.now) }
{
    meshes_room(
        top,
        mesh.vertices.len(),
        mesh.counts.len(),
        mesh.neighbours.len(),
        mesh.angles.len(),
    )
}

// The meshes of the levels from 0 to the top are as long as they need to be, and keep the rule.
#[tactic(auto, using(lists::proofs::Counting::all_fails), unfolding(lists::specs::Lists::all_up_to, crate::specs::Mesh::meshes_keep))]
pub fn meshes_keep(top: u8, mesh: &Mesh) -> bool
    ensures { result ≡ mesh_long (vertices_below (suc top)) (lent mesh.now) && meshes_keep top (lent mesh.now) }
{
    if !meshes_long(top, mesh) {
        return false;
    }
    for m in 0..=top {
        if !keeps_rule(vertex_count(m) as u32, &mesh.level_part(m)) {
            return false;
        }
    }
    true
}

// The neighbour counts of a level's vertices, added up; where no count was lent there is none.
#[tactic(auto, using(crate::proofs::Laws::count_le), unfolding(lists::specs::Lists::sum, crate::specs::Mesh::neighbour_total))]
pub fn neighbour_total(level: u8, counts: &[u8]) -> u64
    ensures { result ≡ neighbour_total counts.now level }
{
    let a = vertices_below(level) as u32;
    let n = vertex_count(level) as u32;
    let mut total: u64 = 0;
    for v in 0..n {
        total += degree(counts, a + v) as u64;
    }
    total
}

// The lengths of neighbour counts and neighbours that the levels from 0 to the top need.
pub fn links_room(top: u8, counts: usize, neighbours: usize) -> bool
    ensures { result ≡ links_room (vertices_below (suc top)) counts neighbours }
{
    let n = (vertices_below(top) + vertex_count(top)) as usize;
    (n <= counts) & (6 * n <= neighbours)
}

// Neighbour counts and neighbours of the levels from 0 to the top are as long as they need to be, and keep their part of the rule.
#[tactic(auto, using(lists::proofs::Counting::all_fails), unfolding(lists::specs::Lists::all_up_to, crate::specs::Mesh::meshes_linked))]
pub fn meshes_linked(top: u8, mesh: &Mesh) -> bool
    ensures { result ≡ links_room (vertices_below (suc top)) (length mesh.now.counts.now) (length mesh.now.neighbours.now)
        && meshes_linked top (lent mesh.now) }
{
    if !links_room(top, mesh.counts.len(), mesh.neighbours.len()) {
        return false;
    }
    for m in 0..=top {
        if !links_kept(vertex_count(m) as u32, &mesh.level_part(m)) {
            return false;
        }
    }
    true
}
