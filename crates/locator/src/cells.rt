// The cells of a locator: each lists, ascending, the vertices that lie in it or beside it. A face of the cube is looked at once: both cell numbers of each
// vertex are kept in a list that something else is written to later. A row of a face's cells is one scan of that list, and each cell a scan of its row.
ghost use Rattle.std.specs.Prelude.{◌≡◌, ◌+◌, ◌*◌, ◌<◌, ◌≤◌, ◌/◌, ◌%◌, length, take, drop, true, ltb};
ghost use Rattle.lists.specs.Lists.{every, put, joined};
ghost use Rattle.search.specs.Cells.{cell_number, cell};
ghost use Rattle.locator.specs.Internal.{kept, near_kept, key_of, vertex_key, Keyed, key_row, in_column, CellsOut, cells_out};

use search::{Seen, Vector3};

// A cell number as a natural number. No cell of a grid is near one that is left out.
fn kept(c: i64) -> u64
    ensures { result ≡ kept c }
{
    if c >= 0 {
        let n = c as u64;
        return if n < 65533 { n + 2 } else { 65535 };
    }
    if c >= -1 { 1 } else { 0 }
}

// The cell number of a coordinate that a face sees at u, d in front of it.
fn cell_number(g: usize, u: f64, d: f64) -> u64
    ensures { result ≡ kept (cell_number g u d) }
{
    kept(float::to_i64(search::in_cells(g as u64, u / d)))
}

// Both cell numbers of a point that a face sees, 0 where it is not in front.
fn key(g: usize, s: Seen) -> u32
    ensures { result ≡ key_of g s.u s.w s.d }
{
    if s.d <= 0.0 {
        return 0;
    }
    (cell_number(g, s.u, s.d) * 65536 + cell_number(g, s.w, s.d)) as u32
}

fn vertex_key(vertices: &[f64], g: usize, face: usize, v: usize) -> u32
    requires { 3 * v + 3 ≤ length vertices.now }
    ensures { result ≡ vertex_key vertices.now g face v }
{
    let at = 3 * v;
    let vertex = Vector3 {
        x: vertices[at],
        y: vertices[at + 1],
        z: vertices[at + 2],
    };
    key(g, search::cube_face_project(face as u64, vertex))
}

// A cell number that is kept so is i, or next to it: k - i is 1, 2 or 3, by one comparison, since two of them become two jumps.
fn near_kept(k: u32, i: u32) -> bool
    requires { (k < 65536) × (i < 65500) }
    ensures { result ≡ near_kept k i }
{
    (k + 65535 - i) % 65536 <= 2
}

// The keys of a face, written where cell c is the first of it.
fn fresh_keys(vertices: &[f64], n: usize, g: usize, c: usize, keys: &mut [u32])
    requires { (3 * n ≤ length vertices.now) × (n ≤ length keys.old) × (0 < g) × (g < 65500)
        × (0 < c % (g * g) → Keyed vertices.now n g (c / (g * g)) keys.old) }
    ensures { Keyed vertices.now n g (c / (g * g)) keys.new × (drop n keys.new ≡ drop n keys.old) }
{
    let a = g * g;
    if 0 < c % a {
        return;
    }
    let face = c / a;
    for v in 0..n {
        keys[v] = vertex_key(vertices, g, face, v);
    }
}

// The vertices near the row of cell c, of which `held` stand in the list already where c is not the first of its row; how many.
fn fresh_row(keys: &[u32], n: usize, g: usize, c: usize, held: usize, row: &mut [u16]) -> usize
    requires { (n ≤ length keys.now) × (n ≤ length row.old) × (n ≤ 65536) × (0 < g) × (g < 65500) × (held ≤ length row.old)
        × (0 < c % (g * g) % g → take held row.old ≡ key_row keys.now n (c % (g * g) / g)) }
    ensures { (result ≤ length row.new) × (take result row.new ≡ key_row keys.now n (c % (g * g) / g)) }
{
    let a = g * g;
    let k = c % a;
    if 0 < k % g {
        return held;
    }
    let i = (k / g) as u32;
    let mut to = 0;
    for v in 0..n {
        if near_kept(keys[v] / 65536, i) {
            row[to] = v as u16;
            to += 1;
        }
    }
    to
}

// Those of a row that are near column j.
fn put_cell(keys: &[u32], row: &[u16], j: u32, out: &mut [u16], at: usize) -> usize
    requires { (every (λ v. ltb v (length keys.now)) row.now ≡ true) × (j < 65500)
        × (at + length (in_column keys.now j row.now) ≤ length out.old) }
    ensures { (result ≡ at + length (in_column keys.now j row.now))
        × (out.new ≡ put out.old at (in_column keys.now j row.now)) }
{
    let mut to = at;
    for v in row {
        if near_kept(keys[*v as usize] % 65536, j) {
            out[to] = *v;
            to += 1;
        }
    }
    to
}

// The first m cells, and where each starts; then where the last ends. The keys and the row are of the cell that is written.
fn fill_cells(
    vertices: &[f64],
    n: usize,
    g: usize,
    m: usize,
    keys: &mut [u32],
    row: &mut [u16],
    offsets: &mut [u32],
    out: &mut [u16],
)
    requires { (3 * n ≤ length vertices.now) × (n ≤ 65536) × (n ≤ length keys.old) × (n ≤ length row.old) × (0 < g) × (g < 65500) × (m < length offsets.old)
        × (length (joined m (cell vertices.now n g)) ≤ length out.old) × (length (joined m (cell vertices.now n g)) ≤ 4294967295) }
    ensures { (◌≡◌ {A = CellsOut}
        (record { offsets = offsets.new; entries = out.new })
        (cells_out vertices.now n g m offsets.old out.old)) × (drop n keys.new ≡ drop n keys.old) }
{
    let a = g * g;
    let mut held = 0;
    let mut to = 0;
    for c in 0..m {
        fresh_keys(vertices, n, g, c, keys);
        held = fresh_row(keys, n, g, c, held, row);
        offsets[c] = to as u32;
        to = put_cell(keys, &row[..held], (c % a % g) as u32, out, to);
    }
    offsets[m] = to as u32;
}

// The same with a list for a row: 2562 vertices are those of the highest level.
pub(crate) fn put_cells(
    vertices: &[f64],
    n: usize,
    g: usize,
    m: usize,
    keys: &mut [u32],
    offsets: &mut [u32],
    out: &mut [u16],
)
    requires { (3 * n ≤ length vertices.now) × (n ≤ 2562) × (n ≤ length keys.old) × (0 < g) × (g < 65500) × (m < length offsets.old)
        × (length (joined m (cell vertices.now n g)) ≤ length out.old) × (length (joined m (cell vertices.now n g)) ≤ 4294967295) }
    ensures { (◌≡◌ {A = CellsOut}
        (record { offsets = offsets.new; entries = out.new })
        (cells_out vertices.now n g m offsets.old out.old)) × (drop n keys.new ≡ drop n keys.old) }
{
    let mut row = [0; 2562];
    fill_cells(vertices, n, g, m, keys, &mut row, offsets, out);
}
