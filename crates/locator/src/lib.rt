// The locator call: the cells of a level's grid and the faces of each vertex, from the level's mesh.
#![tactic(auto)]

ghost use Rattle.std.specs.Prelude.{◌≡◌, ◌≤◌};
ghost use Rattle.mesh.specs.Lent.{lent};
ghost use Rattle.refusals.specs.Numbers.{asked};
ghost use Rattle.search.specs.Search.{locator_of};
ghost use Rattle.locator.specs.Locator.{locator_room, LocatorOut, locator_out};
ghost use Rattle.locator.specs.Internal.{refusal};

mod cells;
mod faces;

pub use faces::{touches, wanted};
use mesh::Mesh;
use refusals::{Asked, Refusal};

// Question 6, of the four lists.
fn locator_room(
    n: u64,
    g: u64,
    cell_offsets: usize,
    cell_vertices: usize,
    face_offsets: usize,
    faces: usize,
) -> bool
    requires { (n ≤ 65535) × (g ≤ 400) }
    ensures { result ≡ locator_room n g cell_offsets cell_vertices face_offsets faces }
{
    let n = n as usize;
    let g = g as usize;
    (6 * (g * g) + 1 <= cell_offsets)
        & ((27 * n <= cell_vertices) & ((n + 1 <= face_offsets) & (45 * n <= faces)))
}

// Questions 2, 6 and 7.
#[tactic(auto, using(refusals::proofs::Numbers::numbered), unfolding(lists::specs::Questions::ask, crate::specs::Internal::refusal))]
fn refusal(
    level: u64,
    mesh: &Mesh,
    cell_offsets: usize,
    cell_vertices: usize,
    face_offsets: usize,
    faces: usize,
) -> Asked
    ensures { asked result ≡ refusal level (lent mesh.now) cell_offsets cell_vertices face_offsets faces }
{
    if 15 < level {
        return Err(Refusal::Level);
    }
    let k = level as u8;
    let n = mesh::vertex_count(k);
    if !mesh::mesh_room(
        n as u32,
        mesh.vertices.len(),
        mesh.counts.len(),
        mesh.neighbours.len(),
        mesh.angles.len(),
    ) {
        return Err(Refusal::ShortList);
    }
    if !locator_room(
        n,
        mesh::grid_size(k),
        cell_offsets,
        cell_vertices,
        face_offsets,
        faces,
    ) {
        return Err(Refusal::ShortList);
    }
    if !mesh::mesh_keeps(k, mesh) {
        return Err(Refusal::Mesh);
    }
    Ok(())
}

// The face offsets hold the cells' keys before they are written.
pub fn locator(
    level: u64,
    mesh: &Mesh,
    cell_offsets: &mut [u32],
    cell_vertices: &mut [u16],
    face_offsets: &mut [u32],
    faces: &mut [u16],
) -> Asked
    ensures { ◌≡◌ {A = LocatorOut}
        (record { number = asked result; lists = locator_of cell_offsets.new cell_vertices.new face_offsets.new faces.new })
        (locator_out level (lent mesh.now) (locator_of cell_offsets.old cell_vertices.old face_offsets.old faces.old)) }
{
    refusal(
        level,
        mesh,
        cell_offsets.len(),
        cell_vertices.len(),
        face_offsets.len(),
        faces.len(),
    )?;
    let k = level as u8;
    let n = mesh::vertex_count(k);
    let g = mesh::grid_size(k) as usize;
    cells::put_cells(
        mesh.vertices,
        n as usize,
        g,
        6 * (g * g),
        face_offsets,
        cell_offsets,
        cell_vertices,
    );
    faces::put_faces(mesh, n as u32, face_offsets, faces);
    Ok(())
}
