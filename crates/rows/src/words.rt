// A slab's row as one number in a lent list: its value, its level, and its kind with whatever stands above it.
ghost use Rattle.std.specs.Prelude.{◌≡◌};
ghost use Rattle.rows.specs.Rows.{Rows, resolution_of, resolution_at, replaced, known, row_known};
ghost use Rattle.rows.specs.Words.{word_of, word_value, word_level, word_kind, word_rows};
ghost use Rattle.rows.specs.Lent.{lent_rows};

use crate::SlabResolution;
use lists::{entry_or, replace_entry};

// The word of three numbers.
#[tactic(auto, unfolding(crate::specs::Words::word_of))]
pub fn word_of(kind: u8, level: u8, value: u32) -> u64
    ensures { result ≡ word_of kind level value }
{
    value as u64 + level as u64 * 4294967296 + kind as u64 * 1099511627776
}

#[tactic(auto, unfolding(crate::specs::Words::word_value))]
pub fn word_value(w: u64) -> u32
    ensures { result ≡ word_value w }
{
    (w % 4294967296) as u32
}

#[tactic(auto, unfolding(crate::specs::Words::word_level))]
pub fn word_level(w: u64) -> u8
    ensures { result ≡ word_level w }
{
    (w / 4294967296 % 256) as u8
}

// All above the level: with a rest it is no known kind.
#[tactic(auto, unfolding(crate::specs::Words::word_kind))]
pub fn word_kind(w: u64) -> u64
    ensures { result ≡ word_kind w }
{
    w / 1099511627776
}

// The row that a word is, its kind being a known one.
#[tactic(auto, unfolding(crate::specs::Rows::resolution_of))]
fn word_resolution(w: u64) -> SlabResolution
    ensures { result ≡ resolution_of (word_kind w) (word_level w) (word_value w) }
{
    match word_kind(w) {
        0 => SlabResolution::Scalar(bits::float32(word_value(w))),
        1 => SlabResolution::Repulsive,
        kind => SlabResolution::Mesh(word_level(w), kind == 3),
    }
}

// The row of slab s; beyond the list its words count as 0.
#[tactic(auto, using(crate::proofs::InWords::resolution_in))]
pub fn resolution_in(words: &[u64], s: u64) -> SlabResolution
    ensures { result ≡ resolution_at (word_rows words.now) s }
{
    word_resolution(entry_or(words, s as usize, 0))
}

// Replaces the row of slab s; nothing is written beyond the list.
#[tactic(auto, using(crate::proofs::InWords::replaced_in))]
pub fn replace_in(words: &mut [u64], s: u64, x: SlabResolution)
    ensures { ◌≡◌ {A = Rows} (word_rows words.new) (replaced (word_rows words.old) s x) }
{
    replace_entry(
        words,
        s as usize,
        word_of(crate::kind_of(x), crate::level_of(x), crate::value_of(x)),
    );
}

// The kind and level part of question 15, of a word.
#[tactic(auto, unfolding(crate::specs::Rows::known))]
fn word_known(top: u64, w: u64) -> bool
    ensures { result ≡ known top (word_kind w) (word_level w) }
{
    let kind = word_kind(w);
    (kind <= 1) | ((kind <= 3) & (word_level(w) as u64 <= top))
}

// The kind and level part of question 15, of slab s.
#[tactic(auto, using(crate::proofs::InWords::known_in))]
pub fn known_in(top: u64, words: &[u64], s: u64) -> bool
    ensures { result ≡ row_known top (word_rows words.now) s }
{
    word_known(top, entry_or(words, s as usize, 0))
}

// Rows in either form, as they are lent: as words, or in three lists. In a contract `lent_rows` of them.
#[derive(Clone, Copy)]
pub enum LentRows<'a> {
    Words(&'a [u64]),
    Lists(&'a [u8], &'a [u8], &'a [u32]),
}

// The row of slab s, and the kind and level part of question 15, in either form.
pub fn resolution_by(rows: &LentRows, s: u64) -> SlabResolution
    ensures { result ≡ resolution_at (lent_rows rows.now) s }
{
    match rows {
        LentRows::Words(words) => resolution_in(words, s),
        LentRows::Lists(kinds, levels, values) => crate::resolution_at(kinds, levels, values, s),
    }
}

pub fn known_by(rows: &LentRows, top: u64, s: u64) -> bool
    ensures { result ≡ row_known top (lent_rows rows.now) s }
{
    match rows {
        LentRows::Words(words) => known_in(top, words, s),
        LentRows::Lists(kinds, levels, _) => crate::row_known(top, kinds, levels, s),
    }
}
