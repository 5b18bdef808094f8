// The table's operations for a caller in C or Rust: include/icotable.h declares them. Each function calls the operation and turns its answer into a struct whose first field is document 01's number, 0 for accepted.
#![tactic(auto)]

ghost use Rattle.std.specs.Prelude.{◌≡◌};
ghost use Rattle.mesh.specs.Mesh.{mesh_of};
ghost use Rattle.search.specs.Search.{locator_of};
ghost use Rattle.builder.specs.BuilderLists.{word_lists};
ghost use Rattle.ieee.specs.Root.{root};
ghost use Rattle.ieee.specs.Fused.{fused};
ghost use Rattle.ieee.specs.Narrow.{narrowed};
ghost use Rattle.ieee.specs.Cases.{narrow_case};
ghost use Rattle.float.specs.Exp.{exponential};
ghost use Rattle.float.specs.Log.{logarithm};
ghost use Rattle.float.specs.Power.{power};
ghost use Rattle.builder.specs.Calls.{BuiltOut, SettleOut, built_values, settled_values, no_builder, fresh_out, set_out, settle_out};
ghost use Rattle.writer.specs.Write.{WriteOut, written_values, write_out};
ghost use Rattle.table.specs.Read.{read_values, read_out};
ghost use Rattle.table.specs.View.{viewer, read_over};
ghost use Rattle.locator.specs.Locator.{LocatorOut, locator_out};
ghost use Rattle.reading.specs.Resolve.{boltzmann, reading_values, reading_of};
ghost use Rattle.reading.specs.Reading.{reading_by, reading_out};
ghost use Rattle.sizing.specs.Sizing.{sizing_out};
ghost use Rattle.icotable.specs.Sizes.{held_vertices, held_cells};
ghost use Rattle.icotable.specs.Answers.{built_in, settled_in, written_in, value_in, table_with, table_answer, table_from};

use builder::{Builder, Settled};
use grid::Grid;
use mesh::Mesh;
use reading::{Energy, Query};
use refusals::Refusal;
use search::{Locator, Vector3};
use sizing::Size;
use table::Table;

mod atom;
mod found;
mod many;
mod moves;
mod repacks;
mod spans;
mod tails;

// Of fresh and set.
#[repr(C)]
#[derive(Clone, Copy)]
pub struct BuildAnswer {
    pub number: u64,
    pub builder: Builder,
}

#[repr(C)]
#[derive(Clone, Copy)]
pub struct SettleAnswer {
    pub number: u64,
    pub gradient: f64,
    pub comparisons: u64,
    pub builder: Builder,
}

#[repr(C)]
#[derive(Clone, Copy)]
pub struct WriteAnswer {
    pub number: u64,
    pub length: u64,
}

// What a file holds; `start` has the byte after each section's count, and for a file without terms its length.
#[repr(C)]
#[derive(Clone, Copy)]
pub struct TableAnswer {
    pub number: u64,
    pub grid: Grid,
    pub levels: u64,
    pub rows: u64,
    pub energies: u64,
    pub terms: u64,
    pub start: [u64; 6],
}

// Of a reading; the distances are squared, and 0.0 but for a nearest reading.
#[repr(C)]
#[derive(Clone, Copy)]
pub struct ValueAnswer {
    pub number: u64,
    pub energy: f64,
    pub distance_a: f64,
    pub distance_b: f64,
}

fn no_grid() -> Grid
    ensures { result ≡ no_builder.grid }
{
    Grid {
        rmin: 0.0,
        rmax: 0.0,
        dr: 0.0,
        omega_step: 0.0,
        threshold: 0.0,
        beta: 0.0,
        n_r: 0,
        n_omega: 0,
    }
}

fn no_builder() -> Builder
    ensures { result ≡ no_builder }
{
    Builder {
        grid: no_grid(),
        top: 0,
        level: 0,
        packed: 0,
    }
}

#[tactic(auto, unfolding(crate::specs::Answers::built_in))]
fn built_answer(kept: Builder, a: Result<Builder, Refusal>) -> BuildAnswer
    ensures { built_in result ≡ built_values kept a }
{
    match a {
        Ok(builder) => BuildAnswer { number: 0, builder },
        Err(e) => BuildAnswer {
            number: e.number(),
            builder: kept,
        },
    }
}

#[tactic(auto, unfolding(crate::specs::Answers::settled_in))]
fn settle_answer(kept: Builder, a: Result<Settled<Builder>, Refusal>) -> SettleAnswer
    ensures { settled_in result ≡ settled_values kept a }
{
    match a {
        Ok(s) => SettleAnswer {
            number: 0,
            gradient: s.gradient,
            comparisons: s.comparisons,
            builder: s.builder,
        },
        Err(e) => SettleAnswer {
            number: e.number(),
            gradient: 0.0,
            comparisons: 0,
            builder: kept,
        },
    }
}

impl From<Result<u64, Refusal>> for WriteAnswer {
    ghost from_gives = { λ a w. written_in w ≡ written_values a };

    #[tactic(auto, unfolding(crate::specs::Answers::written_in))]
    fn from(a: Result<u64, Refusal>) -> WriteAnswer {
        match a {
            Ok(length) => WriteAnswer { number: 0, length },
            Err(e) => WriteAnswer {
                number: e.number(),
                length: 0,
            },
        }
    }
}

#[tactic(auto, unfolding(crate::specs::Answers::table_with))]
fn table_with(number: u64, t: Table) -> TableAnswer
    ensures { result ≡ table_with number t }
{
    TableAnswer {
        number,
        grid: t.grid,
        levels: t.levels,
        rows: t.rows,
        energies: t.energies,
        terms: t.terms,
        start: [
            t.grid_start,
            t.bins_start,
            t.levels_start,
            t.rows_start,
            t.energies_start,
            t.tail_start,
        ],
    }
}

impl From<Result<Table, Refusal>> for TableAnswer {
    ghost from_gives = { λ a t. t ≡ table_answer (read_values a) };

    #[tactic(auto, unfolding(crate::specs::Answers::table_with, crate::specs::Answers::table_answer))]
    fn from(a: Result<Table, Refusal>) -> TableAnswer {
        match a {
            Ok(t) => table_with(0, t),
            Err(e) => TableAnswer {
                number: e.number(),
                grid: no_grid(),
                levels: 0,
                rows: 0,
                energies: 0,
                terms: 0,
                start: [0; 6],
            },
        }
    }
}

// Read's answer as it is handed back to a reading, whatever it holds by then.
impl From<TableAnswer> for Table {
    ghost from_gives = { λ a t. t ≡ table_from a };

    #[tactic(auto, unfolding(crate::specs::Answers::table_from))]
    fn from(t: TableAnswer) -> Table {
        Table {
            grid: t.grid,
            levels: t.levels,
            rows: t.rows,
            energies: t.energies,
            terms: t.terms,
            grid_start: t.start[0],
            bins_start: t.start[1],
            levels_start: t.start[2],
            rows_start: t.start[3],
            energies_start: t.start[4],
            tail_start: t.start[5],
        }
    }
}

impl From<Result<Energy, Refusal>> for ValueAnswer {
    ghost from_gives = { λ a v. value_in v ≡ reading_values (reading_of a) };

    #[tactic(auto, unfolding(crate::specs::Answers::value_in))]
    fn from(a: Result<Energy, Refusal>) -> ValueAnswer {
        match a {
            Ok(e) => ValueAnswer {
                number: 0,
                energy: e.energy,
                distance_a: e.distance_a,
                distance_b: e.distance_b,
            },
            Err(e) => ValueAnswer {
                number: e.number(),
                energy: 0.0,
                distance_a: 0.0,
                distance_b: 0.0,
            },
        }
    }
}

#[unsafe(no_mangle)]
pub extern "C" fn icotable_fresh(
    grid: Grid,
    top: u64,
    store: &mut [f64],
    words: &mut [u64],
    vertices: &[f64],
    neighbour_counts: &[u8],
    neighbours: &[u16],
    angles: &[f64],
) -> BuildAnswer
    ensures { ◌≡◌ {A = BuiltOut}
        (record { answer = built_in result; lists = word_lists store.new words.new })
        (fresh_out grid top (mesh_of vertices.now neighbour_counts.now neighbours.now angles.now)
        (word_lists store.old words.old)) }
{
    let mesh = Mesh {
        vertices,
        counts: neighbour_counts,
        neighbours,
        angles,
    };
    built_answer(no_builder(), builder::fresh(grid, top, store, words, &mesh))
}

#[unsafe(no_mangle)]
pub extern "C" fn icotable_set(
    builder: Builder,
    store: &mut [f64],
    words: &mut [u64],
    ri: u64,
    oi: u64,
    energies: &[f64],
) -> BuildAnswer
    ensures { ◌≡◌ {A = BuiltOut}
        (record { answer = built_in result; lists = word_lists store.new words.new })
        (set_out builder (word_lists store.old words.old) ri oi energies.now) }
{
    built_answer(
        builder,
        builder::set(builder, store, words, ri, oi, energies),
    )
}

#[unsafe(no_mangle)]
pub extern "C" fn icotable_settle(
    builder: Builder,
    store: &[f64],
    words: &mut [u64],
    vertices: &[f64],
    neighbour_counts: &[u8],
    neighbours: &[u16],
    angles: &[f64],
    ri: u64,
) -> SettleAnswer
    ensures { ◌≡◌ {A = SettleOut}
        (record { answer = settled_in result; lists = word_lists store.now words.new })
        (settle_out builder (mesh_of vertices.now neighbour_counts.now neighbours.now angles.now)
        (word_lists store.now words.old) ri) }
{
    let mesh = Mesh {
        vertices,
        counts: neighbour_counts,
        neighbours,
        angles,
    };
    settle_answer(builder, builder::settle(builder, store, words, &mesh, ri))
}

#[unsafe(no_mangle)]
pub extern "C" fn icotable_write(
    builder: Builder,
    store: &[f64],
    words: &[u64],
    vertices: &[f64],
    neighbour_counts: &[u8],
    neighbours: &[u16],
    angles: &[f64],
    output: &mut [u8],
) -> WriteAnswer
    ensures { ◌≡◌ {A = WriteOut}
        (record { answer = written_in result; builder = builder; lists = word_lists store.now words.now; output = output.new })
        (write_out builder (mesh_of vertices.now neighbour_counts.now neighbours.now angles.now)
        (word_lists store.now words.now) output.old) }
{
    let mesh = Mesh {
        vertices,
        counts: neighbour_counts,
        neighbours,
        angles,
    };
    writer::write(builder, store, words, &mesh, output).into()
}

#[unsafe(no_mangle)]
pub extern "C" fn icotable_read(file: &[u8]) -> TableAnswer
    ensures { result ≡ table_answer (read_out file.now) }
{
    table::read(file).into()
}

// The same for the viewer, which opens small tables alone.
#[unsafe(no_mangle)]
pub extern "C" fn icotable_view(file: &[u8]) -> TableAnswer
    ensures { result ≡ table_answer (read_over viewer file.now) }
{
    table::view(file).into()
}

#[unsafe(no_mangle)]
pub extern "C" fn icotable_locator(
    level: u64,
    vertices: &[f64],
    neighbour_counts: &[u8],
    neighbours: &[u16],
    angles: &[f64],
    cell_offsets: &mut [u32],
    cell_vertices: &mut [u16],
    face_offsets: &mut [u32],
    faces: &mut [u16],
) -> u64
    ensures { ◌≡◌ {A = LocatorOut}
        (record { number = result; lists = locator_of cell_offsets.new cell_vertices.new face_offsets.new faces.new })
        (locator_out level (mesh_of vertices.now neighbour_counts.now neighbours.now angles.now)
        (locator_of cell_offsets.old cell_vertices.old face_offsets.old faces.old)) }
{
    let mesh = Mesh {
        vertices,
        counts: neighbour_counts,
        neighbours,
        angles,
    };
    refusals::number_of(locator::locator(
        level,
        &mesh,
        cell_offsets,
        cell_vertices,
        face_offsets,
        faces,
    ))
}

// The table is lent, so that a caller copies no struct for each reading.
#[unsafe(no_mangle)]
pub extern "C" fn icotable_reading(
    table: &TableAnswer,
    file: &[u8],
    vertices: &[f64],
    cell_offsets: &[u32],
    cell_vertices: &[u16],
    face_offsets: &[u32],
    faces: &[u16],
    r: f64,
    omega: f64,
    ax: f64,
    ay: f64,
    az: f64,
    bx: f64,
    by: f64,
    bz: f64,
) -> ValueAnswer
    ensures { value_in result ≡ reading_out file.now (table_from table.now) vertices.now
        (locator_of cell_offsets.now cell_vertices.now face_offsets.now faces.now)
        (record { r = r; omega = omega; a = record { x = ax; y = ay; z = az }; b = record { x = bx; y = by; z = bz } }) }
{
    let locator = Locator {
        cell_offsets,
        cell_vertices,
        face_offsets,
        faces,
    };
    let q = Query {
        r,
        omega,
        a: Vector3 {
            x: ax,
            y: ay,
            z: az,
        },
        b: Vector3 {
            x: bx,
            y: by,
            z: bz,
        },
    };
    reading::lookup((*table).into(), file, vertices, &locator, &q).into()
}

// The same, weighted by temperature.
#[unsafe(no_mangle)]
pub extern "C" fn icotable_boltzmann(
    table: &TableAnswer,
    file: &[u8],
    vertices: &[f64],
    cell_offsets: &[u32],
    cell_vertices: &[u16],
    face_offsets: &[u32],
    faces: &[u16],
    r: f64,
    omega: f64,
    ax: f64,
    ay: f64,
    az: f64,
    bx: f64,
    by: f64,
    bz: f64,
    beta: f64,
) -> ValueAnswer
    ensures { value_in result ≡ reading_by file.now (table_from table.now) vertices.now
        (locator_of cell_offsets.now cell_vertices.now face_offsets.now faces.now)
        (boltzmann beta) (record { r = r; omega = omega; a = record { x = ax; y = ay; z = az }; b = record { x = bx; y = by; z = bz } }) }
{
    let locator = Locator {
        cell_offsets,
        cell_vertices,
        face_offsets,
        faces,
    };
    let q = Query {
        r,
        omega,
        a: Vector3 {
            x: ax,
            y: ay,
            z: az,
        },
        b: Vector3 {
            x: bx,
            y: by,
            z: bz,
        },
    };
    reading::lookup_boltzmann((*table).into(), file, vertices, &locator, &q, beta).into()
}

// What a build of these settings needs, with so many terms in its tail.
#[unsafe(no_mangle)]
pub extern "C" fn icotable_sizing(
    grid: Grid,
    top: u64,
    neighbour_counts: &[u8],
    neighbours: &[u16],
    terms: u64,
) -> Size
    ensures { result ≡ sizing_out grid top neighbour_counts.now neighbours.now terms }
{
    sizing::sizing(grid, top, neighbour_counts, neighbours, terms)
}

// The vertices of a level; 0 above level 15.
#[unsafe(no_mangle)]
pub extern "C" fn icotable_vertices(level: u64) -> u64
    ensures { result ≡ held_vertices level }
{
    if level <= 15 {
        return mesh::vertex_count(level as u8);
    }
    0
}

// The cell offsets of a level; 0 above level 15.
#[unsafe(no_mangle)]
pub extern "C" fn icotable_cells(level: u64) -> u64
    ensures { result ≡ held_cells level }
{
    if level <= 15 {
        let m = level as u8;
        return mesh::cell_offsets_below(m + 1) - mesh::cell_offsets_below(m);
    }
    0
}

#[unsafe(no_mangle)]
pub extern "C" fn icotable_root(x: f64) -> f64
    ensures { result ≡ root x }
{
    ieee::root(x)
}

#[unsafe(no_mangle)]
pub extern "C" fn icotable_exp(y: f64) -> f64
    ensures { result ≡ exponential y }
{
    float::exp(y)
}

#[unsafe(no_mangle)]
pub extern "C" fn icotable_ln(x: f64) -> f64
    ensures { result ≡ logarithm x }
{
    float::ln(x)
}

#[unsafe(no_mangle)]
pub extern "C" fn icotable_power(r: f64, n: u32) -> f64
    ensures { result ≡ power r n }
{
    float::power(r, n)
}

#[unsafe(no_mangle)]
pub extern "C" fn icotable_mul_add(a: f64, b: f64, c: f64) -> f64
    ensures { result ≡ fused a b c }
{
    ieee::mul_add(a, b, c)
}

#[unsafe(no_mangle)]
pub extern "C" fn icotable_narrow(x: f64) -> f32
    ensures { result ≡ narrowed x }
{
    ieee::narrow(x)
}

#[unsafe(no_mangle)]
pub extern "C" fn icotable_narrow_case(x: f64) -> u64
    ensures { result ≡ narrow_case x }
{
    ieee::narrow_case(x)
}
