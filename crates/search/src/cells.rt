// The nearest vertex of a direction's cell, over lent lists that may be damaged.
ghost use Rattle.std.specs.Prelude.{◌≡◌, ◌&&◌, true, false, ◌+◌, ◌*◌, ◌≤◌, ◌<◌, length, leb, ltb, MatchOption};
ghost use Rattle.refusals.specs.Numbers.{number};
ghost use Rattle.mesh.specs.Levels.{vertex_count, grid_size};
ghost use Rattle.search.specs.Geometry.{vertex_at};
ghost use Rattle.search.specs.Search.{not_nearest, nearer, nearest_in, entries_at};
ghost use Rattle.search.specs.Lent.{lent_locator};
ghost use Rattle.search.specs.Internal.{entries_held, inside, nearest_over, Measured, limit_of};

use crate::geometry::{cell_index, difference, dot};
use crate::{Locator, Nearest, Vector3};
use refusals::Refusal;

// The entries between offsets i and i + 1, each offset counting w places; none where they are not inside what was lent.
#[tactic(auto, unfolding(crate::specs::Internal::entries_held, crate::specs::Search::entries_at))]
pub(crate) fn entries_of<'a>(
    offsets: &[u32],
    w: usize,
    entries: &'a [u16],
    i: usize,
) -> Option<&'a [u16]>
    requires { (0 < w) × (w ≤ 3) }
    ensures { MatchOption result (entries_held w offsets.now (length entries.now) i ≡ false)
        (λ s. (entries_held w offsets.now (length entries.now) i ≡ true) × (s.now ≡ entries_at w offsets.now entries.now i)) }
{
    let start = *offsets.get(i)? as usize;
    let end = *offsets.get(i + 1)? as usize;
    // no entry is touched, wherever the offsets lie
    if start == end {
        return Some(&entries[..0]);
    }
    entries.get(w * start..w * end)
}

// A vertex number below n whose coordinates are inside what was lent.
pub(crate) fn inside(n: usize, places: usize, v: usize) -> bool
    requires { v < 65536 }
    ensures { result ≡ inside n places v }
{
    (v < n) & (3 * v + 3 <= places)
}

#[tactic(auto, unfolding(crate::specs::Geometry::vertex_at))]
pub(crate) fn vertex_at(vertices: &[f64], v: usize) -> Vector3
    requires { 3 * v + 3 ≤ length vertices.now }
    ensures { result ≡ vertex_at vertices.now v }
{
    let at = 3 * v;
    Vector3 {
        x: vertices[at],
        y: vertices[at + 1],
        z: vertices[at + 2],
    }
}

// No vertex, for a reason.
pub fn not_nearest(why: Refusal) -> Nearest
    ensures { result ≡ not_nearest (number why) }
{
    Nearest {
        number: why.number(),
        vertex: 0,
        distance: 0.0,
    }
}

// Vertex v, unless the one before is as near or nearer.
#[tactic(auto, unfolding(crate::specs::Search::nearer, crate::specs::Search::squared))]
fn nearer(vertices: &[f64], p: Vector3, best: Nearest, v: usize) -> Nearest
    requires { 3 * v + 3 ≤ length vertices.now }
    ensures { result ≡ nearer vertices.now p best v }
{
    let d = difference(p, vertex_at(vertices, v));
    let distance = dot(d, d);
    if (best.number == 0) & float::total_order(best.distance, distance) {
        return best;
    }
    Nearest {
        number: 0,
        vertex: v as u64,
        distance,
    }
}

// The nearest of the vertices that a cell lists; EmptyCell where it lists none.
fn nearest_by_order(cell: &[u16], vertices: &[f64], n: usize, p: Vector3) -> Nearest
    ensures { result ≡ nearest_over vertices.now n p (not_nearest 20) cell.now }
{
    let mut best = not_nearest(Refusal::EmptyCell);
    for v in cell {
        let v = *v as usize;
        if !inside(n, vertices.len(), v) {
            return not_nearest(Refusal::NotLent);
        }
        best = nearer(vertices, p, best, v);
    }
    best
}

// Vertex v where it is nearer. A distance has a clear sign, so beside a number the plain order will do, and both answers
// are such that the compiler needs no jump.
fn closer(vertices: &[f64], p: Vector3, best: Nearest, v: usize) -> Nearest
    requires { (3 * v + 3 ≤ length vertices.now) × Measured best }
    ensures { result ≡ nearer vertices.now p best v }
{
    let d = difference(p, vertex_at(vertices, v));
    let distance = dot(d, d);
    if distance < best.distance {
        return Nearest {
            number: 0,
            vertex: v as u64,
            distance,
        };
    }
    Nearest { number: 0, ..best }
}

// The nearest of the vertices that a list has and of one before; numbers below `limit` are inside.
fn nearest_of(list: &[u16], vertices: &[f64], limit: usize, p: Vector3, first: Nearest) -> Nearest
    requires { (3 * limit ≤ length vertices.now) × Measured first }
    ensures { result ≡ nearest_over vertices.now limit p first list.now }
{
    let mut best = first;
    for v in list {
        let v = *v as usize;
        if limit <= v {
            return not_nearest(Refusal::NotLent);
        }
        best = closer(vertices, p, best, v);
    }
    best
}

// How many of n vertices have their coordinates inside `places`.
pub(crate) fn limit_of(n: usize, places: usize) -> usize
    ensures { result ≡ limit_of n places }
{
    n.min(places / 3)
}

// The nearest of the vertices that a cell lists; EmptyCell where it lists none. The first one sets the measure, unless
// its distance is a NaN.
fn nearest_in_cell(cell: &[u16], vertices: &[f64], n: usize, p: Vector3) -> Nearest
    ensures { result ≡ nearest_over vertices.now n p (not_nearest 20) cell.now }
{
    let limit = limit_of(n, vertices.len());
    let empty = not_nearest(Refusal::EmptyCell);
    let [v, rest @ ..] = cell else {
        return empty;
    };
    let v = *v as usize;
    if limit <= v {
        return not_nearest(Refusal::NotLent);
    }
    let first = nearer(vertices, p, empty, v);
    if first.distance.is_nan() {
        // of its own parts, and over a list of its own, so that the common way goes through no memory
        let slow = nearest_by_order(cell, &vertices[0..], n, p);
        return Nearest {
            number: slow.number,
            vertex: slow.vertex,
            distance: slow.distance,
        };
    }
    nearest_of(rest, vertices, limit, p, first)
}

// The nearest vertex to a direction p of length 1. The lists are those of one level, from its first entry on.
pub fn find_nearest_vertex(level: u8, locator: &Locator, vertices: &[f64], p: Vector3) -> Nearest
    ensures { result ≡ nearest_in (lent_locator locator.now) vertices.now (vertex_count level)
        (grid_size (vertex_count level)) p }
{
    let cell = cell_index(level, p) as usize;
    let Some(cell) = entries_of(locator.cell_offsets, 1, locator.cell_vertices, cell) else {
        return not_nearest(Refusal::NotLent);
    };
    nearest_in_cell(cell, vertices, mesh::vertex_count(level) as usize, p)
}
