// Rows as a slice of records: read one, replace one, and the bridge to the words. A slab number is an index of the
// slice.
ghost use Rattle.std.specs.Prelude.{◌≡◌, ◌<◌, ◌≤◌, ltb, length, get_or, set};
ghost use Rattle.refusals.specs.Numbers.{asked};
ghost use Rattle.rows.specs.Rows.{resolution_of};
ghost use Rattle.rows.specs.Words.{word_kind, word_rows};
ghost use Rattle.lent.specs.Records.{columns, record_at, record_of, word_in, gather_number, gathered, SpreadOut, spread_out};

use crate::RowRecord;
use refusals::{Asked, Refusal};
use rows::SlabResolution;

impl From<SlabResolution> for RowRecord {
    ghost from_gives = { λ x r. r ≡ record_of x };

    fn from(x: SlabResolution) -> RowRecord {
        RowRecord {
            kind: rows::kind_of(x),
            level: rows::level_of(x),
            value: rows::value_of(x),
        }
    }
}

impl From<RowRecord> for SlabResolution {
    ghost from_gives = { λ r x. x ≡ resolution_of r.kind r.level r.value };

    fn from(r: RowRecord) -> SlabResolution {
        rows::resolution_of(r.kind, r.level, r.value)
    }
}

// The record of a row, and the row of a record, its kind being a known one.
pub fn record_of(x: SlabResolution) -> RowRecord
    ensures { result ≡ record_of x }
{
    x.into()
}

pub fn resolution_of(r: RowRecord) -> SlabResolution
    ensures { result ≡ resolution_of r.kind r.level r.value }
{
    r.into()
}

// The record of slab s; zeros beyond the slice, as beyond a list of words.
pub fn row_at(rows: &[RowRecord], s: usize) -> RowRecord
    ensures { result ≡ record_at (columns rows.now) s }
{
    if s < rows.len() {
        rows[s]
    } else {
        RowRecord {
            kind: 0,
            level: 0,
            value: 0,
        }
    }
}

// Replaces the record of slab s, and answers whether there is one; nothing is written beyond the slice.
pub fn replace_row(rows: &mut [RowRecord], s: usize, r: RowRecord) -> bool
    ensures { (result ≡ ltb s (length rows.old)) × (rows.new ≡ set rows.old s r) }
{
    if s < rows.len() {
        rows[s] = r;
        true
    } else {
        false
    }
}

// What refuses a bridge: 6 where there are fewer words than records, then 15 where a word that goes to a record has a
// rest.
#[tactic(auto, using(refusals::proofs::Numbers::numbered), unfolding(lists::specs::Questions::ask, crate::specs::Records::gather_number))]
fn gather_question(n: usize, words: &[u64]) -> Asked
    ensures { asked result ≡ gather_number n words.now }
{
    if words.len() < n {
        return Err(Refusal::ShortList);
    }
    if !words::rests_clear(words, n as u64) {
        return Err(Refusal::Row);
    }
    Ok(())
}

// The record of a word, and the word of a record.
fn record_at(words: &[u64], s: usize) -> RowRecord
    requires { (s < length words.now) × (word_kind (get_or words.now s 0) ≤ 255) }
    ensures { result ≡ record_at (word_rows words.now) s }
{
    let w = words[s];
    RowRecord {
        kind: rows::word_kind(w) as u8,
        level: rows::word_level(w),
        value: rows::word_value(w),
    }
}

fn word_in(r: RowRecord) -> u64
    ensures { result ≡ word_in r }
{
    rows::word_of(r.kind, r.level, r.value)
}

// The words into the records: all of them, or none where it is refused.
#[tactic(auto, using(refusals::proofs::Numbers::numbered, crate::proofs::Entries::copied_more), unfolding(lists::specs::Lists::for_each, crate::specs::Records::taken))]
pub fn gather(rows: &mut [RowRecord], words: &[u64]) -> Asked
    ensures { (asked result ≡ gather_number (length rows.old) words.now)
        × (rows.new ≡ gathered words.now rows.old) }
{
    gather_question(rows.len(), words)?;
    for i in 0..rows.len() {
        rows[i] = record_at(words, i);
    }
    Ok(())
}

// The records over the words, likewise.
#[tactic(auto, using(crate::proofs::Entries::copied_more, crate::proofs::Entries::word_read), unfolding(lists::specs::Lists::for_each, lists::specs::Questions::ask, crate::specs::Records::spread_number, crate::specs::Records::taken))]
pub fn spread(rows: &[RowRecord], words: &mut [u64]) -> Asked
    ensures { ◌≡◌ {A = SpreadOut}
        (record { number = asked result; words = words.new })
        (spread_out rows.now words.old) }
{
    if words.len() < rows.len() {
        return Err(Refusal::ShortList);
    }
    for (i, r) in rows.iter().enumerate() {
        words[i] = word_in(*r);
    }
    Ok(())
}
