// A reading of a table against an atom: a distance and one direction.
ghost use Rattle.std.specs.Prelude.{◌≡◌, ◌+◌, ◌≤◌, ◌<◌, length, take, drop};
ghost use Rattle.search.specs.Lent.{lent_locator};
ghost use Rattle.table.specs.File.{entry_of};
ghost use Rattle.reading.specs.Resolve.{reading_of, linear, boltzmann, reading_values, outside};
ghost use Rattle.reading.specs.Reading.{entry_by};
ghost use Rattle.reading.specs.Atom.{atom_query_valid, as_grid, atom_combined, atom_search_in, atom_reading_by};
ghost use Rattle.reading.specs.Internal.{table_for, atom_row_table, way_of, atom_row_place};

use crate::atom_combine::{read_atom_interpolated, read_atom_nearest};
use crate::combine::plain;
use crate::places::{entry_inside, items_inside, u32_inside};
use crate::{AtomQuery, Energy, RowTable};
use grid::AtomGrid;
use refusals::Refusal;
use search::{Locator, Vector3};
use table::{AtomTable, Section};

// Question 18.
#[tactic(auto, using(float::proofs::Tests::nan_test), unfolding(crate::specs::Atom::atom_query_valid, grid::specs::Settings::above))]
fn atom_query_valid(q: &AtomQuery) -> bool
    ensures { result ≡ atom_query_valid q.now }
{
    !(q.r != q.r) & search::length_valid(q.d)
}

#[tactic(auto, unfolding(crate::specs::Resolve::outside))]
fn atom_outside(g: AtomGrid, r: f64) -> bool
    ensures { result ≡ outside (as_grid g) r }
{
    (r < g.rmin) | grid::above_rmax(r, g.n_r, g.dr, g.rmin)
}

// Where the row of a distance starts in a file of so many bytes, if it is inside.
fn atom_row_place(t: AtomTable, length: u64, r: f64) -> Option<u64>
    ensures { result ≡ atom_row_place t length r }
{
    if t.grid.n_r == 0 {
        return None;
    }
    let ri = grid::distance_bin(r, t.grid.rmin, t.grid.dr, t.grid.n_r);
    let rows = Section {
        start: t.rows_start,
        count: t.rows,
    };
    let held = items_inside(rows, 10, length);
    if held <= ri {
        return None;
    }
    Some(t.rows_start + ri * 10)
}

fn atom_row_table(t: AtomTable) -> RowTable
    ensures { result ≡ atom_row_table t }
{
    RowTable {
        levels: t.levels,
        energies: Section {
            start: t.energies_start,
            count: t.energies,
        },
    }
}

// The answer of the row that starts at a byte.
fn read_atom_row(
    s: RowTable,
    file: &[u8],
    vertices: &[f64],
    locator: &Locator,
    d: Vector3,
    beta: f64,
    at: u64,
) -> Result<Energy, Refusal>
    requires { at + 10 ≤ length file.now }
    ensures { reading_of result ≡ entry_by file.now (table_for s) (atom_combined (way_of beta))
        (atom_search_in vertices.now (lent_locator locator.now) d) (entry_of (take 10 (drop at file.now))) }
{
    let e = entry_inside(file, at);
    if e.kind == 0 {
        return Ok(plain(bits::widened(e.scalar)));
    }
    if e.kind == 1 {
        return Ok(plain(1.0 / 0.0));
    }
    if (3 < e.kind) | (s.levels <= e.level as u64) {
        return Err(Refusal::NotLent);
    }
    let offset = e.offset as u64;
    let cells = mesh::cell_offsets_below(e.level);
    if e.kind == 3 {
        return read_atom_interpolated(s, file, offset, e.level, cells, locator, vertices, d, beta);
    }
    read_atom_nearest(s, file, offset, e.level, cells, locator, vertices, d)
}

// Reads the energy against an atom at a distance and a direction: over the file's bytes, read's answer, and the
// meshes and locators of all its levels one after another. Short answers and parts of lists are as in `lookup`.
pub fn atom_lookup(
    t: AtomTable,
    file: &[u8],
    vertices: &[f64],
    locator: &Locator,
    q: &AtomQuery,
) -> Result<Energy, Refusal>
    ensures { reading_values (reading_of result) ≡ atom_reading_by file.now t vertices.now (lent_locator locator.now)
        linear q.now }
{
    if !atom_query_valid(q) {
        return Err(Refusal::Query);
    }
    if atom_outside(t.grid, q.r) {
        return Ok(plain(0.0));
    }
    let Some(at) = atom_row_place(t, file.len() as u64, q.r) else {
        return Err(Refusal::NotLent);
    };
    if file[at as usize] == 0 {
        return Ok(plain(bits::widened(u32_inside(file, at + 6))));
    }
    let lists = *locator;
    read_atom_row(
        atom_row_table(t),
        &file[0..],
        &vertices[0..],
        &lists,
        q.d,
        0.0,
        at,
    )
}

// The same with a Mesh row's three energies weighted by temperature.
pub fn atom_lookup_boltzmann(
    t: AtomTable,
    file: &[u8],
    vertices: &[f64],
    locator: &Locator,
    q: &AtomQuery,
    beta: f64,
) -> Result<Energy, Refusal>
    ensures { reading_values (reading_of result) ≡ atom_reading_by file.now t vertices.now (lent_locator locator.now)
        (boltzmann beta) q.now }
{
    if !atom_query_valid(q) {
        return Err(Refusal::Query);
    }
    if !(ieee::is_finite(beta) & (0.0 < beta)) {
        return Err(Refusal::ReadingBeta);
    }
    if atom_outside(t.grid, q.r) {
        return Ok(plain(0.0));
    }
    let Some(at) = atom_row_place(t, file.len() as u64, q.r) else {
        return Err(Refusal::NotLent);
    };
    if file[at as usize] == 0 {
        return Ok(plain(bits::widened(u32_inside(file, at + 6))));
    }
    let lists = *locator;
    read_atom_row(
        atom_row_table(t),
        &file[0..],
        &vertices[0..],
        &lists,
        q.d,
        beta,
        at,
    )
}
