// The first stage of a reading in two: the search of both directions of a pose, as `gather` and `stages` have it, up
// to the places of the energies. It is code of its own: with another caller theirs would no longer be compiled into
// the single reading, which then takes longer.
ghost use Rattle.std.specs.Prelude.{◌≡◌, true, false, ◌+◌, ◌≤◌, ◌<◌, length, take, drop};
ghost use Rattle.mesh.specs.Levels.{vertex_count, grid_size, cell_offsets_below};
ghost use Rattle.search.specs.Geometry.{unit};
ghost use Rattle.search.specs.Search.{nearest_in, locate_in};
ghost use Rattle.search.specs.Lent.{lent_locator};
ghost use Rattle.table.specs.File.{entry_of};
ghost use Rattle.reading.specs.Resolve.{linear, nearest_pick, face_pick, resolve};
ghost use Rattle.reading.specs.Reading.{read_picks, search_in, read_entry, read_slab};
ghost use Rattle.reading.specs.Internal.{table_for, weighed_by, beta_held, read_resolution, Ready};

use crate::combine::plain;
use crate::energies::{stage_faces, stage_pair};
use crate::gather::part_from;
use crate::places::entry_inside;
use crate::resolve::{outside, query_valid, row_place};
use crate::stages::{read_row, row_table};
use crate::{Query, RowTable, Staged};
use refusals::Refusal;
use rows::SlabResolution;
use search::Locator;
use table::Table;

// Over one level's parts of the lists.
fn stage_nearest_in(
    s: RowTable,
    file: &[u8],
    offset: u64,
    level: u8,
    locator: &Locator,
    vertices: &[f64],
    q: &Query,
) -> Result<Staged, Refusal>
    requires { offset < 4294967296 }
    ensures { Ready file.now s.energies.start result
        (read_picks file.now (table_for s) linear false offset (nearest_pick (vertex_count level)
        (nearest_in (lent_locator locator.now) vertices.now (vertex_count level) (grid_size (vertex_count level))
        (unit q.now.a))
        (nearest_in (lent_locator locator.now) vertices.now (vertex_count level) (grid_size (vertex_count level))
        (unit q.now.b)))) }
{
    let n = mesh::vertex_count(level);
    let a = search::unit(q.a);
    let b = search::unit(q.b);
    let x = search::find_nearest_vertex(level, locator, vertices, a);
    let y = search::find_nearest_vertex(level, locator, vertices, b);
    stage_pair(s, file, offset, n, x, y)
}

fn stage_interpolated_in(
    s: RowTable,
    file: &[u8],
    offset: u64,
    level: u8,
    locator: &Locator,
    vertices: &[f64],
    q: &Query,
) -> Result<Staged, Refusal>
    requires { offset < 4294967296 }
    ensures { Ready file.now s.energies.start result
        (read_picks file.now (table_for s) linear true offset (face_pick (vertex_count level)
        (locate_in (lent_locator locator.now) vertices.now (vertex_count level) (grid_size (vertex_count level))
        (unit q.now.a))
        (locate_in (lent_locator locator.now) vertices.now (vertex_count level) (grid_size (vertex_count level))
        (unit q.now.b)))) }
{
    let n = mesh::vertex_count(level);
    let a = search::unit(q.a);
    let b = search::unit(q.b);
    let x = search::locate(level, locator, vertices, a);
    let y = search::locate(level, locator, vertices, b);
    stage_faces(s, file, offset, n, x, y)
}

fn stage_nearest(
    s: RowTable,
    file: &[u8],
    offset: u64,
    level: u8,
    cells: u64,
    locator: &Locator,
    vertices: &[f64],
    q: &Query,
) -> Result<Staged, Refusal>
    requires { (offset < 4294967296) × (cells ≡ cell_offsets_below level) }
    ensures { Ready file.now s.energies.start result (read_picks file.now (table_for s) linear false offset
        (search_in vertices.now (lent_locator locator.now) q.now level false)) }
{
    let below = mesh::vertices_below(level);
    let i = part_from(locator.cell_offsets.len(), cells);
    let j = part_from(locator.cell_vertices.len(), 27 * below);
    let k = part_from(vertices.len(), 3 * below);
    let part = Locator {
        cell_offsets: &locator.cell_offsets[i..],
        cell_vertices: &locator.cell_vertices[j..],
        face_offsets: locator.face_offsets,
        faces: locator.faces,
    };
    stage_nearest_in(s, file, offset, level, &part, &vertices[k..], q)
}

fn stage_interpolated(
    s: RowTable,
    file: &[u8],
    offset: u64,
    level: u8,
    cells: u64,
    locator: &Locator,
    vertices: &[f64],
    q: &Query,
) -> Result<Staged, Refusal>
    requires { (offset < 4294967296) × (cells ≡ cell_offsets_below level) }
    ensures { Ready file.now s.energies.start result (read_picks file.now (table_for s) linear true offset
        (search_in vertices.now (lent_locator locator.now) q.now level true)) }
{
    let below = mesh::vertices_below(level);
    let i = part_from(locator.cell_offsets.len(), cells);
    let j = part_from(locator.cell_vertices.len(), 27 * below);
    let k = part_from(locator.face_offsets.len(), below + level as u64);
    let m = part_from(locator.faces.len(), 45 * below);
    let v = part_from(vertices.len(), 3 * below);
    let part = Locator {
        cell_offsets: &locator.cell_offsets[i..],
        cell_vertices: &locator.cell_vertices[j..],
        face_offsets: &locator.face_offsets[k..],
        faces: &locator.faces[m..],
    };
    stage_interpolated_in(s, file, offset, level, &part, &vertices[v..], q)
}

// By the row's kind; a Mesh row's offset is where its energies begin.
fn stage_resolution(
    s: RowTable,
    file: &[u8],
    vertices: &[f64],
    locator: &Locator,
    q: &Query,
    kind: u8,
    offset: u64,
    row: SlabResolution,
) -> Result<Staged, Refusal>
    requires { offset < 4294967296 }
    ensures { Ready file.now s.energies.start result (read_resolution file.now (table_for s) vertices.now
        (lent_locator locator.now) linear q.now kind offset row) }
{
    match row {
        SlabResolution::Scalar(e) => Ok(Staged::Known(plain(float::widen(e)))),
        SlabResolution::Repulsive => Ok(Staged::Known(plain(1.0 / 0.0))),
        SlabResolution::Mesh(level, interpolate) => {
            if (3 < kind) | (s.levels <= level as u64) {
                return Err(Refusal::NotLent);
            }
            let cells = mesh::cell_offsets_below(level);
            if interpolate {
                return stage_interpolated(s, file, offset, level, cells, locator, vertices, q);
            }
            stage_nearest(s, file, offset, level, cells, locator, vertices, q)
        }
    }
}

// The row that starts at a byte.
fn stage_row(
    s: RowTable,
    file: &[u8],
    vertices: &[f64],
    locator: &Locator,
    q: &Query,
    at: u64,
) -> Result<Staged, Refusal>
    requires { at + 10 ≤ length file.now }
    ensures { Ready file.now s.energies.start result (read_entry file.now (table_for s) vertices.now
        (lent_locator locator.now) linear q.now (entry_of (take 10 (drop at file.now)))) }
{
    let e = entry_inside(file, at);
    let row = rows::resolution_of(e.kind, e.level, e.scalar);
    stage_resolution(s, file, vertices, locator, q, e.kind, e.offset as u64, row)
}

// A pose, where 21 has been asked already; no beta is there where it was answered no. With a beta above 0 its reading
// is made at once: the exponentials keep the processor from going on to the next pose, so a second stage would win
// nothing.
pub(crate) fn stage(
    t: Table,
    file: &[u8],
    vertices: &[f64],
    locator: &Locator,
    q: &Query,
    beta: Option<f64>,
) -> Result<Staged, Refusal>
    ensures { Ready file.now t.energies_start result (read_slab file.now t vertices.now (lent_locator locator.now)
        (weighed_by beta) q.now (resolve (beta_held beta) t.grid q.now)) }
{
    if !query_valid(q) {
        return Err(Refusal::Query);
    }
    let Some(beta) = beta else {
        return Err(Refusal::ReadingBeta);
    };
    if outside(t.grid, q.r) {
        return Ok(Staged::Known(plain(0.0)));
    }
    let Some(at) = row_place(t, file.len() as u64, q) else {
        return Err(Refusal::NotLent);
    };
    if 0.0 < beta {
        let energy = read_row(row_table(t), file, vertices, locator, q, beta, at)?;
        return Ok(Staged::Known(energy));
    }
    stage_row(row_table(t), file, vertices, locator, q, at)
}
