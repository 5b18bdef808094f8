// The search of a direction over a mesh, with no locator: for a caller who searches too seldom for one to pay. Vertices are tested in index order for the
// direction's cell, and the faces of the nearest are found from neighbour lists, so nothing is kept but what fits best so far.
#![tactic(auto)]

ghost use Rattle.std.specs.Prelude.{◌≡◌};
ghost use Rattle.mesh.specs.Lent.{lent};
ghost use Rattle.refusals.specs.Numbers.{asked};
ghost use Rattle.mesh_search.specs.MeshSearch.{search_room, search_refusal, search_out};

use mesh::Mesh;
use refusals::{Asked, Refusal};
use search::{Located, Vector3};

mod faces;
mod vertices;

// Question 6, of the three lists.
fn search_room(n: u32, vertices: usize, counts: usize, neighbours: usize) -> bool
    ensures { result ≡ search_room n vertices counts neighbours }
{
    let m = n as usize;
    (3 * m <= vertices) & ((m <= counts) & (6 * m <= neighbours))
}

// Questions 2, 6, 7 without the angles, and 18.
#[tactic(auto, using(refusals::proofs::Numbers::numbered), unfolding(lists::specs::Questions::ask, crate::specs::MeshSearch::search_refusal, crate::specs::MeshSearch::keeps_but_angles, crate::specs::MeshSearch::direction_valid))]
fn refusal(level: u64, mesh: &Mesh, d: Vector3) -> Asked
    ensures { asked result ≡ search_refusal level (lent mesh.now) d }
{
    if 15 < level {
        return Err(Refusal::Level);
    }
    let n = mesh::vertex_count(level as u8) as u32;
    if !search_room(
        n,
        mesh.vertices.len(),
        mesh.counts.len(),
        mesh.neighbours.len(),
    ) {
        return Err(Refusal::ShortList);
    }
    if !mesh::vertices_finite(n, mesh.vertices) {
        return Err(Refusal::Mesh);
    }
    if !mesh::links_kept(n, mesh) {
        return Err(Refusal::Mesh);
    }
    if !search::length_valid(d) {
        return Err(Refusal::Query);
    }
    Ok(())
}

// The nearest vertex, face and weights of a direction of any length. The lists are those of one level, from its first
// entry on; the angles are not looked at.
pub fn search_mesh(level: u64, mesh: &Mesh, d: Vector3) -> Located
    ensures { result ≡ search_out level (lent mesh.now) d }
{
    if let Err(why) = refusal(level, mesh, d) {
        return search::not_located(why.number());
    }
    let k = level as u8;
    let n = mesh::vertex_count(k) as u32;
    let p = search::unit(d);
    let g = mesh::grid_size(k);
    let near = vertices::nearest(mesh.vertices, n, g, search::cell_index(k, p), p);
    if near.number != 0 {
        return search::not_located(near.number);
    }
    search::fitted(near, faces::best_face(mesh, n, p, near.vertex as u32))
}
