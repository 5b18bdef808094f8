// The slabs of a table that is written: their rows, and how many energies each has.
ghost use Rattle.std.specs.Prelude.{◌≡◌, ◌+◌, ◌*◌, ◌≤◌};
ghost use Rattle.builder.specs.BuilderLists.{rows_known};
ghost use Rattle.rows.specs.Lent.{lent_rows};
ghost use Rattle.writer.specs.Slabs.{each_by, each_in, slab_rows};
ghost use Rattle.writer.specs.Internal.{held_by, total};

use rows::{LentRows, SlabResolution};

// The rows of n slabs. A Mesh row has n·n energies where rows are words, and n, against an atom, where they are lists.
#[derive(Clone, Copy)]
pub(crate) struct Slabs<'a> {
    pub(crate) rows: LentRows<'a>,
    pub(crate) n: u64,
}

// How many energies a Mesh row of a level has among such rows.
pub(crate) fn energies_at(rows: &LentRows, level: u8) -> u64
    ensures { result ≡ each_by rows.now level }
{
    match rows {
        LentRows::Words(_) => mesh::per_level(level),
        LentRows::Lists(_, _, _) => mesh::vertex_count(level),
    }
}

// How many energies a row holds.
pub(crate) fn energy_count(rows: &LentRows, x: SlabResolution) -> u64
    ensures { result ≡ held_by (each_by rows.now) x }
{
    match x {
        SlabResolution::Mesh(level, _) => energies_at(rows, level),
        SlabResolution::Scalar(_) | SlabResolution::Repulsive => 0,
    }
}

// The energies of all rows together.
pub(crate) fn energy_total(slabs: &Slabs) -> u64
    requires { total (each_in slabs.now) (slab_rows slabs.now) ≤ 4294967295 }
    ensures { result ≡ total (each_in slabs.now) (slab_rows slabs.now) }
{
    let mut o = 0;
    for s in 0..slabs.n {
        o += energy_count(&slabs.rows, rows::resolution_by(&slabs.rows, s));
    }
    o
}

// The bytes of a file whose heads have `heads` bytes, and whose n rows hold e energies together.
pub(crate) fn file_size(heads: u64, top: u64, n: u64, e: u64) -> u64
    requires { (heads ≤ 40) × (top ≤ 15) × (n ≤ 4294836225) × (e ≤ 4294967295) }
    ensures { result ≡ heads + 16 + 4 * top + 10 * n + 4 * e }
{
    heads + 16 + 4 * top + 10 * n + 4 * e
}

// The kind and level part of question 15, of every row.
pub(crate) fn rows_known(slabs: &Slabs, top: u64) -> bool
    ensures { result ≡ rows_known top (lent_rows slabs.now.rows) 0 slabs.now.n }
{
    for s in 0..slabs.n {
        if !rows::known_by(&slabs.rows, top, s) {
            return false;
        }
    }
    true
}
