// The middle stage: the search of both directions at a level.
ghost use Rattle.std.specs.Prelude.{◌≡◌, true, false, ◌≤◌, ◌<◌};
ghost use Rattle.mesh.specs.Levels.{vertex_count, grid_size, cell_offsets_below};
ghost use Rattle.search.specs.Geometry.{unit};
ghost use Rattle.search.specs.Search.{nearest_in, locate_in};
ghost use Rattle.search.specs.Lent.{lent_locator};
ghost use Rattle.reading.specs.Resolve.{reading_of, linear, nearest_pick, face_pick};
ghost use Rattle.reading.specs.Reading.{read_picks, search_in};
ghost use Rattle.reading.specs.Internal.{table_for, way_of, part_from};

use crate::combine::{interpolated, nearest};
use crate::{Energy, Query, RowTable};
use refusals::Refusal;
use search::Locator;

// Over one level's parts of the lists.
fn nearest_in(
    s: RowTable,
    file: &[u8],
    offset: u64,
    level: u8,
    locator: &Locator,
    vertices: &[f64],
    q: &Query,
) -> Result<Energy, Refusal>
    requires { offset < 4294967296 }
    ensures { reading_of result ≡ read_picks file.now (table_for s) linear false offset
        (nearest_pick (vertex_count level)
        (nearest_in (lent_locator locator.now) vertices.now (vertex_count level) (grid_size (vertex_count level))
        (unit q.now.a))
        (nearest_in (lent_locator locator.now) vertices.now (vertex_count level) (grid_size (vertex_count level))
        (unit q.now.b))) }
{
    let n = mesh::vertex_count(level);
    let a = search::unit(q.a);
    let b = search::unit(q.b);
    let x = search::find_nearest_vertex(level, locator, vertices, a);
    let y = search::find_nearest_vertex(level, locator, vertices, b);
    nearest(s, file, offset, n, x, y)
}

fn interpolated_in(
    s: RowTable,
    file: &[u8],
    offset: u64,
    level: u8,
    locator: &Locator,
    vertices: &[f64],
    q: &Query,
    beta: f64,
) -> Result<Energy, Refusal>
    requires { offset < 4294967296 }
    ensures { reading_of result ≡ read_picks file.now (table_for s) (way_of beta) true offset
        (face_pick (vertex_count level)
        (locate_in (lent_locator locator.now) vertices.now (vertex_count level) (grid_size (vertex_count level))
        (unit q.now.a))
        (locate_in (lent_locator locator.now) vertices.now (vertex_count level) (grid_size (vertex_count level))
        (unit q.now.b))) }
{
    let n = mesh::vertex_count(level);
    let a = search::unit(q.a);
    let b = search::unit(q.b);
    let x = search::locate(level, locator, vertices, a);
    let y = search::locate(level, locator, vertices, b);
    interpolated(s, file, offset, n, x, y, beta)
}

// Where a level's part of a list begins: at its end, where the list is shorter.
#[tactic(auto, unfolding(crate::specs::Internal::part_from))]
pub(crate) fn part_from(length: usize, at: u64) -> usize
    ensures { (result ≡ part_from at length) × (result ≤ length) }
{
    if at < length as u64 {
        return at as usize;
    }
    length
}

// Of all levels' lists those of one. A nearest vertex asks no list of faces.
pub(crate) fn read_nearest(
    s: RowTable,
    file: &[u8],
    offset: u64,
    level: u8,
    cells: u64,
    locator: &Locator,
    vertices: &[f64],
    q: &Query,
) -> Result<Energy, Refusal>
    requires { (offset < 4294967296) × (cells ≡ cell_offsets_below level) }
    ensures { reading_of result ≡ read_picks file.now (table_for s) linear false offset
        (search_in vertices.now (lent_locator locator.now) q.now level false) }
{
    let below = mesh::vertices_below(level);
    let i = part_from(locator.cell_offsets.len(), cells);
    let j = part_from(locator.cell_vertices.len(), 27 * below);
    let k = part_from(vertices.len(), 3 * below);
    let part = Locator {
        cell_offsets: &locator.cell_offsets[i..],
        cell_vertices: &locator.cell_vertices[j..],
        face_offsets: locator.face_offsets,
        faces: locator.faces,
    };
    nearest_in(s, file, offset, level, &part, &vertices[k..], q)
}

pub(crate) fn read_interpolated(
    s: RowTable,
    file: &[u8],
    offset: u64,
    level: u8,
    cells: u64,
    locator: &Locator,
    vertices: &[f64],
    q: &Query,
    beta: f64,
) -> Result<Energy, Refusal>
    requires { (offset < 4294967296) × (cells ≡ cell_offsets_below level) }
    ensures { reading_of result ≡ read_picks file.now (table_for s) (way_of beta) true offset
        (search_in vertices.now (lent_locator locator.now) q.now level true) }
{
    let below = mesh::vertices_below(level);
    let i = part_from(locator.cell_offsets.len(), cells);
    let j = part_from(locator.cell_vertices.len(), 27 * below);
    let k = part_from(locator.face_offsets.len(), below + level as u64);
    let m = part_from(locator.faces.len(), 45 * below);
    let v = part_from(vertices.len(), 3 * below);
    let part = Locator {
        cell_offsets: &locator.cell_offsets[i..],
        cell_vertices: &locator.cell_vertices[j..],
        face_offsets: &locator.face_offsets[k..],
        faces: &locator.faces[m..],
    };
    interpolated_in(s, file, offset, level, &part, &vertices[v..], q, beta)
}
