// A slab's row: an enum, three numbers in lent lists, or a word in one.
#![tactic(auto)]

ghost use Rattle.std.specs.Prelude.{◌≡◌, get_or};
ghost use Rattle.rows.specs.Rows.{Rows, kind_of, level_of, value_of, resolution_of, resolution_at, replaced, known, rows_of};

use lists::{entry_or, replace_entry};

mod words;

pub use words::{
    LentRows, known_by, known_in, replace_in, resolution_by, resolution_in, word_kind, word_level,
    word_of, word_value,
};

// What is known of a slab: one energy for all directions, a mesh of energies (its level, and whether a reading interpolates), or nothing but
// that it is strongly repulsive.
#[derive(Clone, Copy)]
pub enum SlabResolution {
    Scalar(f32),
    Mesh(u8, bool),
    Repulsive,
}

pub fn kind_of(x: SlabResolution) -> u8
    ensures { result ≡ kind_of x }
{
    match x {
        SlabResolution::Scalar(_) => 0,
        SlabResolution::Repulsive => 1,
        SlabResolution::Mesh(_, false) => 2,
        SlabResolution::Mesh(_, true) => 3,
    }
}

pub fn level_of(x: SlabResolution) -> u8
    ensures { result ≡ level_of x }
{
    match x {
        SlabResolution::Mesh(level, _) => level,
        SlabResolution::Scalar(_) | SlabResolution::Repulsive => 0,
    }
}

pub fn value_of(x: SlabResolution) -> u32
    ensures { result ≡ value_of x }
{
    match x {
        SlabResolution::Scalar(e) => bits::bits32(e),
        SlabResolution::Mesh(_, _) | SlabResolution::Repulsive => 0,
    }
}

// The row that three numbers are, the kind being a known one.
#[tactic(auto, unfolding(crate::specs::Rows::resolution_of))]
pub fn resolution_of(kind: u8, level: u8, value: u32) -> SlabResolution
    ensures { result ≡ resolution_of kind level value }
{
    match kind {
        0 => SlabResolution::Scalar(bits::float32(value)),
        1 => SlabResolution::Repulsive,
        _ => SlabResolution::Mesh(level, kind == 3),
    }
}

// The kind and level part of question 15.
#[tactic(auto, unfolding(crate::specs::Rows::known))]
pub fn known(top: u64, kind: u8, level: u8) -> bool
    ensures { result ≡ known top kind level }
{
    (kind <= 1) | ((kind <= 3) & (level as u64 <= top))
}

// The row of slab s; beyond the lists their entries count as 0.
#[tactic(auto, unfolding(crate::specs::Rows::resolution_at))]
pub fn resolution_at(kinds: &[u8], levels: &[u8], values: &[u32], s: u64) -> SlabResolution
    ensures { result ≡ resolution_at (rows_of kinds.now levels.now values.now) s }
{
    let i = s as usize;
    resolution_of(
        entry_or(kinds, i, 0),
        entry_or(levels, i, 0),
        entry_or(values, i, 0),
    )
}

// Replaces the row of slab s; nothing is written beyond the lists.
#[tactic(auto, unfolding(crate::specs::Rows::replaced))]
pub fn replace(kinds: &mut [u8], levels: &mut [u8], values: &mut [u32], s: u64, x: SlabResolution)
    ensures { ◌≡◌ {A = Rows}
        (rows_of kinds.new levels.new values.new)
        (replaced (rows_of kinds.old levels.old values.old) s x) }
{
    let i = s as usize;
    replace_entry(kinds, i, kind_of(x));
    replace_entry(levels, i, level_of(x));
    replace_entry(values, i, value_of(x));
}

// The kind and level part of question 15, of slab s.
pub fn row_known(top: u64, kinds: &[u8], levels: &[u8], s: u64) -> bool
    ensures { result ≡ known top (get_or kinds.now s 0) (get_or levels.now s 0) }
{
    let i = s as usize;
    known(top, entry_or(kinds, i, 0), entry_or(levels, i, 0))
}
