// The face of a vertex that fits a direction best. The vertex's faces come in the order of `extract_faces`: by their least vertex, ascending, and then as the
// least vertex's own list has the other two. Each is weighed as it is found.
ghost use Rattle.std.specs.Prelude.{◌≡◌};
ghost use Rattle.mesh.specs.Faces.{face};
ghost use Rattle.mesh.specs.Lent.{lent};
ghost use Rattle.search.specs.Cells.{faces_of};
ghost use Rattle.search.specs.Search.{no_fit, better, fit_from};
ghost use Rattle.locator.specs.Internal.{only, wanted, touches, thirds, block};

use crate::vertices::vertex_at;
use mesh::{Face, Mesh};
use search::{Fit, Vector3};

// Face i, j, k, where the least of its weights is above that of the face before.
fn better(mesh: &Mesh, p: Vector3, best: Fit, i: u32, j: u32, k: u32) -> Fit
    ensures { result ≡ better mesh.now.vertices.now p best (face i j k) }
{
    let a = vertex_at(mesh.vertices, i);
    let b = vertex_at(mesh.vertices, j);
    let c = vertex_at(mesh.vertices, k);
    let weights = search::projected_barycentric(p, a, b, c);
    let least = float::min(float::min(weights.a, weights.b), weights.c);
    if best.least < least {
        return Fit {
            face: Face {
                a: i as u64,
                b: j as u64,
                c: k as u64,
            },
            weights,
            least,
        };
    }
    best
}

// Face i, j, k beside the faces before, where it is one of v's.
fn with_face(mesh: &Mesh, p: Vector3, v: u32, i: u32, j: u32, k: u32, best: Fit) -> Fit
    ensures { result ≡ fit_from mesh.now.vertices.now p best (only (wanted (lent mesh.now) i j k v) (face i j k)) }
{
    if !locator::wanted(mesh, i, j, k, v) {
        return best;
    }
    better(mesh, p, best, i, j, k)
}

// The faces of v whose least vertices are i and j, the third among i's first c neighbours.
fn with_thirds(mesh: &Mesh, p: Vector3, v: u32, i: u32, j: u32, c: u32, before: Fit) -> Fit
    ensures { result ≡ fit_from mesh.now.vertices.now p before (thirds (lent mesh.now) v i c j) }
{
    let mut best = before;
    for y in 0..c {
        let k = mesh::neighbour(mesh.neighbours, i, y);
        best = with_face(mesh, p, v, i, j, k, best);
    }
    best
}

// The faces of v whose least vertex is i.
fn with_block(mesh: &Mesh, p: Vector3, v: u32, i: u32, before: Fit) -> Fit
    ensures { result ≡ fit_from mesh.now.vertices.now p before (block (lent mesh.now) v i) }
{
    if !locator::touches(mesh, i, v) {
        return before;
    }
    let c = mesh::degree(mesh.counts, i);
    let mut best = before;
    for x in 0..c {
        let j = mesh::neighbour(mesh.neighbours, i, x);
        best = with_thirds(mesh, p, v, i, j, c, best);
    }
    best
}

// The best of the faces of v: the least vertex of none is above v.
pub(crate) fn best_face(mesh: &Mesh, n: u32, p: Vector3, v: u32) -> Fit
    ensures { result ≡ fit_from mesh.now.vertices.now p no_fit (faces_of (lent mesh.now) n v) }
{
    let mut best = search::no_fit();
    let end = if v < n { v + 1 } else { n };
    for i in 0..end {
        best = with_block(mesh, p, v, i, best);
    }
    best
}
