// The energies that a search of one direction picked, and what they make together.
ghost use Rattle.std.specs.Prelude.{◌≡◌, true, false, ◌<◌};
ghost use Rattle.mesh.specs.Levels.{cell_offsets_below};
ghost use Rattle.refusals.specs.Numbers.{asked};
ghost use Rattle.search.specs.Lent.{lent_locator};
ghost use Rattle.reading.specs.Resolve.{reading_of, linear};
ghost use Rattle.reading.specs.Reading.{picks_by};
ghost use Rattle.reading.specs.Atom.{three_terms, atom_average, atom_combined, atom_nearest_pick, atom_face_pick, atom_search_in};
ghost use Rattle.reading.specs.Internal.{table_for, way_of, IsSearched, NearestBelow, LocatedBelow};

use crate::combine::{energy, joint, places_below, plain};
use crate::gather::part_from;
use crate::places::items_inside;
use crate::{Energy, RowTable};
use refusals::{Asked, Refusal};
use search::{Located, Locator, Nearest, Vector3, Weights};

// What the number of a search says.
fn searched(number: u64) -> Asked
    requires { IsSearched number }
    ensures { asked result ≡ number }
{
    joint(number, 0)
}

// The energy of a vertex.
fn atom_nearest(s: RowTable, file: &[u8], offset: u64, x: Nearest) -> Result<Energy, Refusal>
    requires { (offset < 4294967296) × NearestBelow 655362 x }
    ensures { reading_of result ≡ picks_by file.now (table_for s) (atom_combined linear false) offset
        (atom_nearest_pick x) }
{
    searched(x.number)?;
    let held = items_inside(s.energies, 4, file.len() as u64);
    if held <= offset + x.vertex {
        return Err(Refusal::NotLent);
    }
    Ok(plain(energy(file, s.energies.start, offset + x.vertex)))
}

// The sum over a face, which begins at its first term.
fn three_terms(w: Weights, x: f64, y: f64, z: f64) -> f64
    ensures { result ≡ three_terms w x y z }
{
    w.a * x + w.b * y + w.c * z
}

// The average over a face, weighted by temperature; a corner of no weight stays in.
fn three_average(beta: f64, w: Weights, x: f64, y: f64, z: f64) -> f64
    ensures { result ≡ atom_average beta w x y z }
{
    let u = float::min(float::min(x, y), z);
    if !ieee::is_finite(u) & !(u != u) {
        return 1.0 / 0.0;
    }
    let p = float::exp(-beta * (x - u));
    let q = float::exp(-beta * (y - u));
    let s = float::exp(-beta * (z - u));
    let sum = three_terms(w, p, q, s);
    if sum <= 0.0 {
        return 1.0 / 0.0;
    }
    u - float::ln(sum) / beta
}

// The sum over a face, or the weighted average with a beta above 0.
fn atom_interpolated(
    s: RowTable,
    file: &[u8],
    offset: u64,
    x: Located,
    beta: f64,
) -> Result<Energy, Refusal>
    requires { (offset < 4294967296) × LocatedBelow 655362 x }
    ensures { reading_of result ≡ picks_by file.now (table_for s) (atom_combined (way_of beta) true) offset
        (atom_face_pick x) }
{
    searched(x.number)?;
    let held = items_inside(s.energies, 4, file.len() as u64);
    if !places_below(held, offset, 0, x.face) {
        return Err(Refusal::NotLent);
    }
    let p = energy(file, s.energies.start, offset + x.face.a);
    let q = energy(file, s.energies.start, offset + x.face.b);
    let r = energy(file, s.energies.start, offset + x.face.c);
    if 0.0 < beta {
        return Ok(plain(three_average(beta, x.weights, p, q, r)));
    }
    Ok(plain(three_terms(x.weights, p, q, r)))
}

pub(crate) fn read_atom_nearest(
    s: RowTable,
    file: &[u8],
    offset: u64,
    level: u8,
    cells: u64,
    locator: &Locator,
    vertices: &[f64],
    d: Vector3,
) -> Result<Energy, Refusal>
    requires { (offset < 4294967296) × (cells ≡ cell_offsets_below level) }
    ensures { reading_of result ≡ picks_by file.now (table_for s) (atom_combined linear false) offset
        (atom_search_in vertices.now (lent_locator locator.now) d level false) }
{
    let below = mesh::vertices_below(level);
    let i = part_from(locator.cell_offsets.len(), cells);
    let j = part_from(locator.cell_vertices.len(), 27 * below);
    let k = part_from(vertices.len(), 3 * below);
    let part = Locator {
        cell_offsets: &locator.cell_offsets[i..],
        cell_vertices: &locator.cell_vertices[j..],
        face_offsets: locator.face_offsets,
        faces: locator.faces,
    };
    let p = search::unit(d);
    let x = search::find_nearest_vertex(level, &part, &vertices[k..], p);
    atom_nearest(s, file, offset, x)
}

pub(crate) fn read_atom_interpolated(
    s: RowTable,
    file: &[u8],
    offset: u64,
    level: u8,
    cells: u64,
    locator: &Locator,
    vertices: &[f64],
    d: Vector3,
    beta: f64,
) -> Result<Energy, Refusal>
    requires { (offset < 4294967296) × (cells ≡ cell_offsets_below level) }
    ensures { reading_of result ≡ picks_by file.now (table_for s) (atom_combined (way_of beta) true) offset
        (atom_search_in vertices.now (lent_locator locator.now) d level true) }
{
    let below = mesh::vertices_below(level);
    let i = part_from(locator.cell_offsets.len(), cells);
    let j = part_from(locator.cell_vertices.len(), 27 * below);
    let k = part_from(locator.face_offsets.len(), below + level as u64);
    let m = part_from(locator.faces.len(), 45 * below);
    let v = part_from(vertices.len(), 3 * below);
    let part = Locator {
        cell_offsets: &locator.cell_offsets[i..],
        cell_vertices: &locator.cell_vertices[j..],
        face_offsets: &locator.face_offsets[k..],
        faces: &locator.faces[m..],
    };
    let p = search::unit(d);
    let x = search::locate(level, &part, &vertices[v..], p);
    atom_interpolated(s, file, offset, x, beta)
}
