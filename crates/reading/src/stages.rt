// A reading: the stages in their order.
ghost use Rattle.std.specs.Prelude.{◌≡◌, ◌+◌, ◌≤◌, ◌<◌, length, take, drop};
ghost use Rattle.search.specs.Lent.{lent_locator};
ghost use Rattle.table.specs.File.{entry_of};
ghost use Rattle.reading.specs.Resolve.{reading_of, boltzmann, reading_values};
ghost use Rattle.reading.specs.Reading.{read_entry, reading_by, reading_out};
ghost use Rattle.reading.specs.Internal.{table_for, row_table, way_of, read_resolution};

use crate::combine::plain;
use crate::gather::{read_interpolated, read_nearest};
use crate::places::{entry_inside, u32_inside};
use crate::resolve::{outside, query_valid, row_place};
use crate::{Energy, Query, RowTable};
use refusals::Refusal;
use rows::SlabResolution;
use search::Locator;
use table::{Section, Table};

// The row's answer, by its kind; a Mesh row's offset is where its energies begin.
fn read_resolution(
    s: RowTable,
    file: &[u8],
    vertices: &[f64],
    locator: &Locator,
    q: &Query,
    beta: f64,
    kind: u8,
    offset: u64,
    row: SlabResolution,
) -> Result<Energy, Refusal>
    requires { offset < 4294967296 }
    ensures { reading_of result ≡ read_resolution file.now (table_for s) vertices.now (lent_locator locator.now)
        (way_of beta) q.now kind offset row }
{
    match row {
        SlabResolution::Scalar(e) => Ok(plain(float::widen(e))),
        SlabResolution::Repulsive => Ok(plain(1.0 / 0.0)),
        SlabResolution::Mesh(level, interpolate) => {
            if (3 < kind) | (s.levels <= level as u64) {
                return Err(Refusal::NotLent);
            }
            // asked for once, and by one caller alone: so it is compiled in place
            let cells = mesh::cell_offsets_below(level);
            if interpolate {
                return read_interpolated(s, file, offset, level, cells, locator, vertices, q, beta);
            }
            read_nearest(s, file, offset, level, cells, locator, vertices, q)
        }
    }
}

// What a row's answer asks of a table.
pub(crate) fn row_table(t: Table) -> RowTable
    ensures { result ≡ row_table t }
{
    RowTable {
        levels: t.levels,
        energies: Section {
            start: t.energies_start,
            count: t.energies,
        },
    }
}

// The answer of the row that starts at a byte. Both readings call it, so it is compiled apart.
pub(crate) fn read_row(
    s: RowTable,
    file: &[u8],
    vertices: &[f64],
    locator: &Locator,
    q: &Query,
    beta: f64,
    at: u64,
) -> Result<Energy, Refusal>
    requires { at + 10 ≤ length file.now }
    ensures { reading_of result ≡ read_entry file.now (table_for s) vertices.now (lent_locator locator.now)
        (way_of beta) q.now (entry_of (take 10 (drop at file.now))) }
{
    let e = entry_inside(file, at);
    let row = rows::resolution_of(e.kind, e.level, e.scalar);
    read_resolution(
        s,
        file,
        vertices,
        locator,
        q,
        beta,
        e.kind,
        e.offset as u64,
        row,
    )
}

// Reads a table's energy at a distance, a dihedral angle and two directions: over the file's bytes, read's answer,
// and the meshes and locators of all its levels one after another. The short answers, a Scalar row's too, are given
// here, in the caller's own code. The question and the lists are handed on as copies, the lists as parts, each from
// its first entry on: lent as they are they would be stored before a short answer.
pub fn lookup(
    t: Table,
    file: &[u8],
    vertices: &[f64],
    locator: &Locator,
    q: &Query,
) -> Result<Energy, Refusal>
    ensures { reading_values (reading_of result) ≡ reading_out file.now t vertices.now
        (lent_locator locator.now) q.now }
{
    if !query_valid(q) {
        return Err(Refusal::Query);
    }
    if outside(t.grid, q.r) {
        return Ok(plain(0.0));
    }
    let Some(at) = row_place(t, file.len() as u64, q) else {
        return Err(Refusal::NotLent);
    };
    if file[at as usize] == 0 {
        return Ok(plain(bits::widened(u32_inside(file, at + 6))));
    }
    let copy = *q;
    let lists = *locator;
    read_row(
        row_table(t),
        &file[0..],
        &vertices[0..],
        &lists,
        &copy,
        0.0,
        at,
    )
}

// The same with a Mesh row's nine energies weighted by temperature; beta is the reading's own, in the inverse of the
// energies' unit.
pub fn lookup_boltzmann(
    t: Table,
    file: &[u8],
    vertices: &[f64],
    locator: &Locator,
    q: &Query,
    beta: f64,
) -> Result<Energy, Refusal>
    ensures { reading_values (reading_of result) ≡ reading_by file.now t vertices.now (lent_locator locator.now)
        (boltzmann beta) q.now }
{
    if !query_valid(q) {
        return Err(Refusal::Query);
    }
    if !(ieee::is_finite(beta) & (0.0 < beta)) {
        return Err(Refusal::ReadingBeta);
    }
    if outside(t.grid, q.r) {
        return Ok(plain(0.0));
    }
    let Some(at) = row_place(t, file.len() as u64, q) else {
        return Err(Refusal::NotLent);
    };
    if file[at as usize] == 0 {
        return Ok(plain(bits::widened(u32_inside(file, at + 6))));
    }
    let copy = *q;
    let lists = *locator;
    read_row(
        row_table(t),
        &file[0..],
        &vertices[0..],
        &lists,
        &copy,
        beta,
        at,
    )
}
