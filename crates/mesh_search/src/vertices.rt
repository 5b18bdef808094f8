// The nearest vertex: every vertex is tested for the direction's cell, in index order.
ghost use Rattle.std.specs.Prelude.{◌≡◌, cond, ◌<◌, ◌≤◌};
ghost use Rattle.search.specs.Geometry.{vertex_at, cube_face_project};
ghost use Rattle.search.specs.Cells.{near, cell_number, near_cell, cell};
ghost use Rattle.search.specs.Search.{not_nearest, nearer, nearest_among};

use refusals::Refusal;
use search::{Nearest, Vector3};

// A coordinate that is not lent is a NaN.
pub(crate) fn vertex_at(vertices: &[f64], v: u32) -> Vector3
    ensures { result ≡ vertex_at vertices.now v }
{
    let at = 3 * v as usize;
    Vector3 {
        x: mesh::entry(vertices, at),
        y: mesh::entry(vertices, at + 1),
        z: mesh::entry(vertices, at + 2),
    }
}

// Cell number c is i, or next to it.
fn near(c: i64, i: u32) -> bool
    ensures { result ≡ near c i }
{
    let k = i as u64;
    if c >= 0 {
        let n = c as u64;
        return (n <= k + 1) & (k <= n + 1);
    }
    if c >= -1 {
        return k == 0;
    }
    false
}

// The cell number of a coordinate that a face sees at u, d in front of it, is i, or next to it.
fn in_row(g: u64, u: f64, d: f64, i: u32) -> bool
    ensures { result ≡ near (cell_number g u d) i }
{
    near(float::to_i64(search::in_cells(g, u / d)), i)
}

// Cell i, j of a face of the cube, whose edges have g cells.
#[derive(Clone, Copy)]
struct Cell {
    g: u64,
    face: u64,
    i: u32,
    j: u32,
}

// A point is in a cell, or beside it.
fn near_cell(c: Cell, v: Vector3) -> bool
    ensures { result ≡ near_cell c.g c.i c.j (cube_face_project c.face v) }
{
    let s = search::cube_face_project(c.face, v);
    if s.d <= 0.0 {
        return false;
    }
    in_row(c.g, s.u, s.d, c.i) & in_row(c.g, s.w, s.d, c.j)
}

// Vertex v, unless the one before is as near or nearer.
fn nearer(vertices: &[f64], p: Vector3, best: Nearest, v: u32) -> Nearest
    ensures { result ≡ nearer vertices.now p best v }
{
    let d = search::difference(p, vertex_at(vertices, v));
    let distance = search::dot(d, d);
    if (best.number == 0) & float::total_order(best.distance, distance) {
        return best;
    }
    Nearest {
        number: 0,
        vertex: v as u64,
        distance,
    }
}

// The same where vertex v is of the cell, and as before where it is not.
fn tested(vertices: &[f64], c: Cell, p: Vector3, best: Nearest, v: u32) -> Nearest
    ensures { result ≡ cond (near_cell c.g c.i c.j (cube_face_project c.face (vertex_at vertices.now v))) (nearer vertices.now p best v) best }
{
    if !near_cell(c, vertex_at(vertices, v)) {
        return best;
    }
    nearer(vertices, p, best, v)
}

// The nearest of the n vertices that cell c has; EmptyCell where it has none.
pub(crate) fn nearest(vertices: &[f64], n: u32, g: u64, c: u64, p: Vector3) -> Nearest
    requires { (0 < g) × (g ≤ 400) }
    ensures { (result ≡ nearest_among vertices.now p (cell vertices.now n g c)) × (result.vertex ≤ n) }
{
    let a = g * g;
    let face = c / a;
    let k = c % a;
    let i = (k / g) as u32;
    let j = (k % g) as u32;
    let cell = Cell { g, face, i, j };
    let mut best = search::not_nearest(Refusal::EmptyCell);
    for v in 0..n {
        best = tested(vertices, cell, p, best, v);
    }
    best
}
