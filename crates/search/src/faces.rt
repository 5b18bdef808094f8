// The face around the nearest vertex that fits a direction best.
ghost use Rattle.std.specs.Prelude.{◌≡◌, ◌&&◌, ◌+◌, ◌*◌, ◌%◌, ◌≤◌, length};
ghost use Rattle.mesh.specs.Levels.{vertex_count, grid_size};
ghost use Rattle.mesh.specs.Faces.{face};
ghost use Rattle.search.specs.Geometry.{vertex_at, projected_barycentric};
ghost use Rattle.search.specs.Search.{no_fit, not_located, better, located_fit, locate_in};
ghost use Rattle.search.specs.Lent.{lent_locator};
ghost use Rattle.search.specs.Internal.{FaceInside, inside, fit_over, sifted, sift_over};

use crate::cells::{entries_of, find_nearest_vertex, inside, limit_of, vertex_at};
use crate::triangle::{is_past, projected_barycentric, sides_of};
use crate::{Fit, Located, Locator, Nearest, Vector3, Weights};
use mesh::Face;
use refusals::Refusal;

// The face of three numbers of a list.
fn face_of(a: u16, b: u16, c: u16) -> Face
    ensures { result ≡ face a b c }
{
    Face {
        a: u64::from(a),
        b: u64::from(b),
        c: u64::from(c),
    }
}

// Before any face is weighed.
pub fn no_fit() -> Fit
    ensures { result ≡ no_fit }
{
    Fit {
        face: Face { a: 0, b: 0, c: 0 },
        weights: Weights {
            a: 0.0,
            b: 0.0,
            c: 0.0,
        },
        least: f64::NEG_INFINITY,
    }
}

// No face, for the reason with this number.
pub fn not_located(number: u64) -> Located
    ensures { result ≡ not_located number }
{
    Located {
        number,
        vertex: 0,
        distance: 0.0,
        face: Face { a: 0, b: 0, c: 0 },
        weights: Weights {
            a: 0.0,
            b: 0.0,
            c: 0.0,
        },
    }
}

// The best face beside the nearest vertex.
pub fn fitted(near: Nearest, best: Fit) -> Located
    ensures { result ≡ located_fit near best }
{
    Located {
        number: 0,
        vertex: near.vertex,
        distance: near.distance,
        face: best.face,
        weights: best.weights,
    }
}

// The weights of p in the triangle of a face.
fn weights_of(vertices: &[f64], p: Vector3, f: Face) -> Weights
    requires { FaceInside vertices.now f }
    ensures { result ≡ projected_barycentric p (vertex_at vertices.now f.a) (vertex_at vertices.now f.b)
        (vertex_at vertices.now f.c) }
{
    projected_barycentric(
        p,
        vertex_at(vertices, f.a as usize),
        vertex_at(vertices, f.b as usize),
        vertex_at(vertices, f.c as usize),
    )
}

// Face f, where the least of its weights is above that of the face before.
#[tactic(auto, unfolding(crate::specs::Search::better))]
fn better(vertices: &[f64], p: Vector3, best: Fit, f: Face) -> Fit
    requires { FaceInside vertices.now f }
    ensures { result ≡ better vertices.now p best f }
{
    let weights = weights_of(vertices, p, f);
    let least = float::min(float::min(weights.a, weights.b), weights.c);
    if best.least < least {
        return Fit {
            face: f,
            weights,
            least,
        };
    }
    best
}

// Its three vertices are inside what was lent.
fn face_inside(n: usize, places: usize, a: u16, b: u16, c: u16) -> bool
    ensures { result ≡ (inside n places a && (inside n places b && inside n places c)) }
{
    inside(n, places, a as usize) & (inside(n, places, b as usize) & inside(n, places, c as usize))
}

// The best of the faces that are listed, three places each, one after another, beside the nearest vertex.
fn best_of_all(faces: &[u16], vertices: &[f64], n: usize, p: Vector3, near: Nearest) -> Located
    requires { length faces.now % 3 ≡ 0 }
    ensures { result ≡ fit_over vertices.now n p near no_fit faces.now }
{
    let mut best = no_fit();
    let mut left = faces;
    while let [a, b, c, rest @ ..] = left {
        if !face_inside(n, vertices.len(), *a, *b, *c) {
            return not_located(Refusal::NotLent.number());
        }
        best = better(vertices, p, best, face_of(*a, *b, *c));
        left = rest;
    }
    fitted(near, best)
}

// Of the faces that are listed those that p is not told to be past: whether there are none, one or more (0, 1, 2), and the
// place of the last one.
#[derive(Clone, Copy)]
struct Within {
    count: usize,
    at: usize,
}

// The same with face f, which is listed from place i on.
#[tactic(auto, unfolding(crate::specs::Internal::sifted))]
fn sifted(vertices: &[f64], p: Vector3, w: Within, i: usize, f: Face) -> Within
    requires { FaceInside vertices.now f }
    ensures { result ≡ sifted vertices.now p w i f }
{
    let a = vertex_at(vertices, f.a as usize);
    let b = vertex_at(vertices, f.b as usize);
    let c = vertex_at(vertices, f.c as usize);
    if is_past(sides_of(p, a, b, c)) {
        return w;
    }
    Within {
        count: 1 + usize::from(w.count != 0),
        at: i,
    }
}

// One pass over the faces; as if there were more where a vertex is not inside.
fn sift(faces: &[u16], vertices: &[f64], limit: usize, p: Vector3) -> Within
    requires { (length faces.now % 3 ≡ 0) × (3 * limit ≤ length vertices.now) }
    ensures { result ≡ sift_over vertices.now limit p 0 (record { count = 0; at = 0 }) faces.now }
{
    let mut w = Within { count: 0, at: 0 };
    let mut left = faces;
    while let [a, b, c, rest @ ..] = left {
        if !((usize::from(*a) < limit) & ((usize::from(*b) < limit) & (usize::from(*c) < limit))) {
            return Within { count: 2, at: 0 };
        }
        w = sifted(
            vertices,
            p,
            w,
            faces.len() - left.len(),
            face_of(*a, *b, *c),
        );
        left = rest;
    }
    w
}

// The same, by one pass where it tells.
fn best_face(faces: &[u16], vertices: &[f64], n: usize, p: Vector3, near: Nearest) -> Located
    requires { length faces.now % 3 ≡ 0 }
    ensures { result ≡ fit_over vertices.now n p near no_fit faces.now }
{
    let w = sift(faces, vertices, limit_of(n, vertices.len()), p);
    if (1 < w.count) | faces.is_empty() {
        return best_of_all(faces, vertices, n, p, near);
    }
    let face = face_of(faces[w.at], faces[w.at + 1], faces[w.at + 2]);
    let fit = better(vertices, p, no_fit(), face);
    // p is past every other face, so none of those has a least weight above 0
    if (0.0 < fit.least) | ((w.count == 0) & (0.0 <= fit.least)) {
        return fitted(near, fit);
    }
    best_of_all(faces, vertices, n, p, near)
}

// The nearest vertex, face and weights of a direction p of length 1. The lists are those of one level, from its first
// entry on.
pub fn locate(level: u8, locator: &Locator, vertices: &[f64], p: Vector3) -> Located
    ensures { result ≡ locate_in (lent_locator locator.now) vertices.now (vertex_count level)
        (grid_size (vertex_count level)) p }
{
    let near = find_nearest_vertex(level, locator, vertices, p);
    if near.number != 0 {
        return not_located(near.number);
    }
    let vertex = near.vertex as usize;
    let Some(faces) = entries_of(locator.face_offsets, 3, locator.faces, vertex) else {
        return not_located(Refusal::NotLent.number());
    };
    best_face(faces, vertices, mesh::vertex_count(level) as usize, p, near)
}
