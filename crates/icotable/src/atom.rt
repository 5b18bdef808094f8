// The operations of a table against an atom, as lib.rt has those of a table.
ghost use Rattle.std.specs.Prelude.{◌≡◌};
ghost use Rattle.mesh.specs.Mesh.{mesh_of};
ghost use Rattle.search.specs.Search.{locator_of};
ghost use Rattle.builder.specs.BuilderLists.{lists_of};
ghost use Rattle.builder.specs.Atom.{AtomBuiltOut, AtomSettleOut, atom_built_values, atom_settled_values, no_atom_builder, atom_fresh_out, atom_set_out, atom_settle_out};
ghost use Rattle.writer.specs.Atom.{AtomWriteOut, atom_write_out};
ghost use Rattle.table.specs.Atom.{atom_read_values, atom_read_out};
ghost use Rattle.reading.specs.Resolve.{linear, boltzmann, reading_values, reading_of};
ghost use Rattle.reading.specs.Atom.{atom_reading_by};
ghost use Rattle.reading.specs.Internal.{energy_alone};
ghost use Rattle.sizing.specs.Sizing.{atom_sizing_out};
ghost use Rattle.icotable.specs.Answers.{written_in};
ghost use Rattle.icotable.specs.AtomAnswers.{atom_built_in, atom_settled_in, energy_in, atom_table_with, atom_table_answer, atom_table_from};

use crate::WriteAnswer;
use builder::{AtomBuilder, Settled};
use grid::AtomGrid;
use mesh::Mesh;
use reading::{AtomQuery, Energy};
use refusals::Refusal;
use search::{Locator, Vector3};
use sizing::Size;
use table::AtomTable;

// Of fresh and set.
#[repr(C)]
#[derive(Clone, Copy)]
pub struct AtomBuildAnswer {
    pub number: u64,
    pub builder: AtomBuilder,
}

#[repr(C)]
#[derive(Clone, Copy)]
pub struct AtomSettleAnswer {
    pub number: u64,
    pub gradient: f64,
    pub comparisons: u64,
    pub builder: AtomBuilder,
}

// What a file holds; `start` has the byte after each section's count.
#[repr(C)]
#[derive(Clone, Copy)]
pub struct AtomTableAnswer {
    pub number: u64,
    pub grid: AtomGrid,
    pub levels: u64,
    pub rows: u64,
    pub energies: u64,
    pub start: [u64; 5],
}

#[repr(C)]
#[derive(Clone, Copy)]
pub struct EnergyAnswer {
    pub number: u64,
    pub energy: f64,
}

fn no_atom_grid() -> AtomGrid
    ensures { result ≡ no_atom_builder.grid }
{
    AtomGrid {
        rmin: 0.0,
        rmax: 0.0,
        dr: 0.0,
        threshold: 0.0,
        beta: 0.0,
        n_r: 0,
    }
}

fn no_atom_builder() -> AtomBuilder
    ensures { result ≡ no_atom_builder }
{
    AtomBuilder {
        grid: no_atom_grid(),
        top: 0,
        level: 0,
    }
}

#[tactic(auto, unfolding(crate::specs::AtomAnswers::atom_built_in))]
fn atom_built_answer(kept: AtomBuilder, a: Result<AtomBuilder, Refusal>) -> AtomBuildAnswer
    ensures { atom_built_in result ≡ atom_built_values kept a }
{
    match a {
        Ok(builder) => AtomBuildAnswer { number: 0, builder },
        Err(e) => AtomBuildAnswer {
            number: e.number(),
            builder: kept,
        },
    }
}

#[tactic(auto, unfolding(crate::specs::AtomAnswers::atom_settled_in))]
fn atom_settle_answer(
    kept: AtomBuilder,
    a: Result<Settled<AtomBuilder>, Refusal>,
) -> AtomSettleAnswer
    ensures { atom_settled_in result ≡ atom_settled_values kept a }
{
    match a {
        Ok(s) => AtomSettleAnswer {
            number: 0,
            gradient: s.gradient,
            comparisons: s.comparisons,
            builder: s.builder,
        },
        Err(e) => AtomSettleAnswer {
            number: e.number(),
            gradient: 0.0,
            comparisons: 0,
            builder: kept,
        },
    }
}

#[tactic(auto, unfolding(crate::specs::AtomAnswers::atom_table_with))]
fn atom_table_with(number: u64, t: AtomTable) -> AtomTableAnswer
    ensures { result ≡ atom_table_with number t }
{
    AtomTableAnswer {
        number,
        grid: t.grid,
        levels: t.levels,
        rows: t.rows,
        energies: t.energies,
        start: [
            t.grid_start,
            t.bins_start,
            t.levels_start,
            t.rows_start,
            t.energies_start,
        ],
    }
}

impl From<Result<AtomTable, Refusal>> for AtomTableAnswer {
    ghost from_gives = { λ a t. t ≡ atom_table_answer (atom_read_values a) };

    #[tactic(auto, unfolding(crate::specs::AtomAnswers::atom_table_with, crate::specs::AtomAnswers::atom_table_answer))]
    fn from(a: Result<AtomTable, Refusal>) -> AtomTableAnswer {
        match a {
            Ok(t) => atom_table_with(0, t),
            Err(e) => AtomTableAnswer {
                number: e.number(),
                grid: no_atom_grid(),
                levels: 0,
                rows: 0,
                energies: 0,
                start: [0; 5],
            },
        }
    }
}

// Read's answer as it is handed back to a reading, whatever it holds by then.
impl From<AtomTableAnswer> for AtomTable {
    ghost from_gives = { λ a t. t ≡ atom_table_from a };

    #[tactic(auto, unfolding(crate::specs::AtomAnswers::atom_table_from))]
    fn from(t: AtomTableAnswer) -> AtomTable {
        AtomTable {
            grid: t.grid,
            levels: t.levels,
            rows: t.rows,
            energies: t.energies,
            grid_start: t.start[0],
            bins_start: t.start[1],
            levels_start: t.start[2],
            rows_start: t.start[3],
            energies_start: t.start[4],
        }
    }
}

impl From<Result<Energy, Refusal>> for EnergyAnswer {
    ghost from_gives = { λ a e. energy_in e ≡ energy_alone (reading_values (reading_of a)) };

    #[tactic(auto, unfolding(crate::specs::AtomAnswers::energy_in))]
    fn from(a: Result<Energy, Refusal>) -> EnergyAnswer {
        match a {
            Ok(Energy { energy, .. }) => EnergyAnswer { number: 0, energy },
            Err(e) => EnergyAnswer {
                number: e.number(),
                energy: 0.0,
            },
        }
    }
}

#[unsafe(no_mangle)]
pub extern "C" fn icotable_atom_fresh(
    grid: AtomGrid,
    top: u64,
    store: &mut [f64],
    kinds: &mut [u8],
    levels: &mut [u8],
    values: &mut [u32],
    vertices: &[f64],
    neighbour_counts: &[u8],
    neighbours: &[u16],
    angles: &[f64],
) -> AtomBuildAnswer
    ensures { ◌≡◌ {A = AtomBuiltOut}
        (record { answer = atom_built_in result; lists = lists_of store.new kinds.new levels.new values.new })
        (atom_fresh_out grid top (mesh_of vertices.now neighbour_counts.now neighbours.now angles.now)
        (lists_of store.old kinds.old levels.old values.old)) }
{
    let mesh = Mesh {
        vertices,
        counts: neighbour_counts,
        neighbours,
        angles,
    };
    atom_built_answer(
        no_atom_builder(),
        builder::atom_fresh(grid, top, store, kinds, levels, values, &mesh),
    )
}

#[unsafe(no_mangle)]
pub extern "C" fn icotable_atom_set(
    builder: AtomBuilder,
    store: &mut [f64],
    kinds: &mut [u8],
    levels: &mut [u8],
    values: &mut [u32],
    ri: u64,
    energies: &[f64],
) -> AtomBuildAnswer
    ensures { ◌≡◌ {A = AtomBuiltOut}
        (record { answer = atom_built_in result; lists = lists_of store.new kinds.new levels.new values.new })
        (atom_set_out builder (lists_of store.old kinds.old levels.old values.old) ri energies.now) }
{
    atom_built_answer(
        builder,
        builder::atom_set(builder, store, kinds, levels, values, ri, energies),
    )
}

#[unsafe(no_mangle)]
pub extern "C" fn icotable_atom_settle(
    builder: AtomBuilder,
    store: &[f64],
    kinds: &mut [u8],
    levels: &mut [u8],
    values: &mut [u32],
    vertices: &[f64],
    neighbour_counts: &[u8],
    neighbours: &[u16],
    angles: &[f64],
    ri: u64,
) -> AtomSettleAnswer
    ensures { ◌≡◌ {A = AtomSettleOut}
        (record { answer = atom_settled_in result; lists = lists_of store.now kinds.new levels.new values.new })
        (atom_settle_out builder (mesh_of vertices.now neighbour_counts.now neighbours.now angles.now)
        (lists_of store.now kinds.old levels.old values.old) ri) }
{
    let mesh = Mesh {
        vertices,
        counts: neighbour_counts,
        neighbours,
        angles,
    };
    atom_settle_answer(
        builder,
        builder::atom_settle(builder, store, kinds, levels, values, &mesh, ri),
    )
}

#[unsafe(no_mangle)]
pub extern "C" fn icotable_atom_write(
    builder: AtomBuilder,
    store: &[f64],
    kinds: &[u8],
    levels: &[u8],
    values: &[u32],
    vertices: &[f64],
    neighbour_counts: &[u8],
    neighbours: &[u16],
    angles: &[f64],
    output: &mut [u8],
) -> WriteAnswer
    ensures { ◌≡◌ {A = AtomWriteOut}
        (record { answer = written_in result; builder = builder; lists = lists_of store.now kinds.now levels.now values.now; output = output.new })
        (atom_write_out builder (mesh_of vertices.now neighbour_counts.now neighbours.now angles.now)
        (lists_of store.now kinds.now levels.now values.now) output.old) }
{
    let mesh = Mesh {
        vertices,
        counts: neighbour_counts,
        neighbours,
        angles,
    };
    writer::atom_write(builder, store, kinds, levels, values, &mesh, output).into()
}

#[unsafe(no_mangle)]
pub extern "C" fn icotable_atom_read(file: &[u8]) -> AtomTableAnswer
    ensures { result ≡ atom_table_answer (atom_read_out file.now) }
{
    table::atom_read(file).into()
}

// The table is lent, so that a caller copies no struct for each reading.
#[unsafe(no_mangle)]
pub extern "C" fn icotable_atom_reading(
    table: &AtomTableAnswer,
    file: &[u8],
    vertices: &[f64],
    cell_offsets: &[u32],
    cell_vertices: &[u16],
    face_offsets: &[u32],
    faces: &[u16],
    r: f64,
    dx: f64,
    dy: f64,
    dz: f64,
) -> EnergyAnswer
    ensures { energy_in result ≡ atom_reading_by file.now (atom_table_from table.now) vertices.now
        (locator_of cell_offsets.now cell_vertices.now face_offsets.now faces.now)
        linear (record { r = r; d = record { x = dx; y = dy; z = dz } }) }
{
    let locator = Locator {
        cell_offsets,
        cell_vertices,
        face_offsets,
        faces,
    };
    let q = AtomQuery {
        r,
        d: Vector3 {
            x: dx,
            y: dy,
            z: dz,
        },
    };
    reading::atom_lookup((*table).into(), file, vertices, &locator, &q).into()
}

// The same, weighted by temperature.
#[unsafe(no_mangle)]
pub extern "C" fn icotable_atom_boltzmann(
    table: &AtomTableAnswer,
    file: &[u8],
    vertices: &[f64],
    cell_offsets: &[u32],
    cell_vertices: &[u16],
    face_offsets: &[u32],
    faces: &[u16],
    r: f64,
    dx: f64,
    dy: f64,
    dz: f64,
    beta: f64,
) -> EnergyAnswer
    ensures { energy_in result ≡ atom_reading_by file.now (atom_table_from table.now) vertices.now
        (locator_of cell_offsets.now cell_vertices.now face_offsets.now faces.now)
        (boltzmann beta) (record { r = r; d = record { x = dx; y = dy; z = dz } }) }
{
    let locator = Locator {
        cell_offsets,
        cell_vertices,
        face_offsets,
        faces,
    };
    let q = AtomQuery {
        r,
        d: Vector3 {
            x: dx,
            y: dy,
            z: dz,
        },
    };
    reading::atom_lookup_boltzmann((*table).into(), file, vertices, &locator, &q, beta).into()
}

// What a build of these settings needs.
#[unsafe(no_mangle)]
pub extern "C" fn icotable_atom_sizing(
    grid: AtomGrid,
    top: u64,
    neighbour_counts: &[u8],
    neighbours: &[u16],
) -> Size
    ensures { result ≡ atom_sizing_out grid top neighbour_counts.now neighbours.now }
{
    sizing::atom_sizing(grid, top, neighbour_counts, neighbours)
}
