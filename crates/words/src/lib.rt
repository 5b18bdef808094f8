// Rows moved between the three lists and words.
#![tactic(auto)]

ghost use Rattle.std.specs.Prelude.{◌≡◌, true, ◌&&◌, ◌≤◌, length, take, leb};
ghost use Rattle.lists.specs.Lists.{every, put};
ghost use Rattle.rows.specs.Rows.{Rows, rows_of, row_room};
ghost use Rattle.rows.specs.Words.{word_rows};
ghost use Rattle.refusals.specs.Numbers.{asked};
ghost use Rattle.words.specs.Moves.{words_of, put_rows, rest_clear, rests_clear, ToWords, rows_to_words, ToRows, words_to_rows};

use refusals::{Asked, Refusal};

// Question 6, of all four lists.
#[tactic(auto, unfolding(rows::specs::Rows::row_room))]
fn move_long(n: u64, kinds: u64, levels: u64, values: u64, words: u64) -> bool
    ensures { result ≡ row_room n kinds levels values && leb n words }
{
    ((n <= kinds) & ((n <= levels) & (n <= values))) & (n <= words)
}

fn rest_clear(w: u64) -> bool
    ensures { result ≡ rest_clear w }
{
    rows::word_kind(w) < 256
}

fn all_clear(words: &[u64]) -> bool
    ensures { result ≡ every rest_clear words.now }
{
    for w in words {
        if !rest_clear(*w) {
            return false;
        }
    }
    true
}

// Question 15 of a move to the lists: no rest in the first n words.
#[tactic(auto, unfolding(crate::specs::Moves::rests_clear))]
pub fn rests_clear(words: &[u64], n: u64) -> bool
    ensures { result ≡ rests_clear n words.now }
{
    let end = words.len().min(n as usize);
    all_clear(&words[..end])
}

fn put_words(n: u64, kinds: &[u8], levels: &[u8], values: &[u32], words: &mut [u64])
    requires { (n ≤ length kinds.now) × (n ≤ length levels.now) × (n ≤ length values.now) × (n ≤ length words.old) }
    ensures { words.new ≡ put words.old 0 (take n (words_of kinds.now levels.now values.now)) }
{
    for i in 0..n as usize {
        words[i] = rows::word_of(kinds[i], levels[i], values[i]);
    }
}

fn put_rows(n: u64, words: &[u64], kinds: &mut [u8], levels: &mut [u8], values: &mut [u32])
    requires { (n ≤ length words.now) × (n ≤ length kinds.old) × (n ≤ length levels.old) × (n ≤ length values.old) × (rests_clear n words.now ≡ true) }
    ensures { ◌≡◌ {A = Rows}
        (rows_of kinds.new levels.new values.new)
        (put_rows (rows_of kinds.old levels.old values.old) (word_rows (take n words.now))) }
{
    for i in 0..n as usize {
        let w = words[i];
        kinds[i] = rows::word_kind(w) as u8;
        levels[i] = rows::word_level(w);
        values[i] = rows::word_value(w);
    }
}

// Moves the first rows of three lists to words; refused by question 6, it moves nothing.
pub fn rows_to_words(
    rows: u64,
    kinds: &[u8],
    levels: &[u8],
    values: &[u32],
    words: &mut [u64],
) -> Asked
    ensures { ◌≡◌ {A = ToWords}
        (record { number = asked result; words = words.new })
        (rows_to_words rows (rows_of kinds.now levels.now values.now) words.old) }
{
    if !move_long(
        rows,
        kinds.len() as u64,
        levels.len() as u64,
        values.len() as u64,
        words.len() as u64,
    ) {
        return Err(Refusal::ShortList);
    }
    put_words(rows, kinds, levels, values, words);
    Ok(())
}

// Moves the first words to three lists; refused by question 6 or 15, it moves nothing.
pub fn words_to_rows(
    rows: u64,
    words: &[u64],
    kinds: &mut [u8],
    levels: &mut [u8],
    values: &mut [u32],
) -> Asked
    ensures { ◌≡◌ {A = ToRows}
        (record { number = asked result; rows = rows_of kinds.new levels.new values.new })
        (words_to_rows rows words.now (rows_of kinds.old levels.old values.old)) }
{
    if !move_long(
        rows,
        kinds.len() as u64,
        levels.len() as u64,
        values.len() as u64,
        words.len() as u64,
    ) {
        return Err(Refusal::ShortList);
    }
    if !rests_clear(words, rows) {
        return Err(Refusal::Row);
    }
    put_rows(rows, words, kinds, levels, values);
    Ok(())
}
