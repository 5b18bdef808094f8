// A settle with the builder lent, and a record replaced in a lent list of rows, each beside the by-value call over
// words. `either_form` of `lent` has the rest by proof.
#![tactic(auto)]

use builder::Builder;
use grid::Grid;
use lent::{LentSettled, RowRecord};
use refusals::Refusal;
use rows::SlabResolution;
use std::io;
use test_meshes::Meshes;

mod through;

// What a settle answered and left: its number, the gradient's bits, the comparisons, the level, and row 0 as a word.
#[derive(Clone, Copy)]
struct Left {
    number: u64,
    gradient: u64,
    comparisons: u64,
    level: u64,
    row: u64,
}

// What the lent form gave, beside what the by-value call gave.
fn say(rt: &impl Print, what: &str, lent: u64, by_value: u64) -> io::Result<()> {
    print!(rt; "{what}: {lent}")?;
    if lent == by_value {
        println!(rt; ", as by value")
    } else {
        println!(rt; ", but by value {by_value}")
    }
}

fn compare(rt: &impl Print, what: &str, lent: Left, by_value: Left) -> io::Result<()> {
    say(rt, what, lent.number, by_value.number)?;
    say(rt, "  gradient's bits", lent.gradient, by_value.gradient)?;
    say(rt, "  comparisons", lent.comparisons, by_value.comparisons)?;
    say(rt, "  level after it", lent.level, by_value.level)?;
    say(rt, "  row 0", lent.row, by_value.row)
}

fn word_of(r: RowRecord) -> u64 {
    rows::word_of(r.kind, r.level, r.value)
}

// What the gradient and the comparisons of an answer, the level and row 0 come to.
fn left_by(answer: Result<LentSettled, Refusal>, level: u64, row: u64) -> Left {
    match answer {
        Ok(s) => Left {
            number: 0,
            gradient: bits::bits64(s.gradient),
            comparisons: s.comparisons,
            level,
            row,
        },
        Err(e) => Left {
            number: e.number(),
            gradient: 0,
            comparisons: 0,
            level,
            row,
        },
    }
}

fn settle_by_value(b: Builder, ri: u64, store: &[f64], rows: [u64; 2]) -> Left {
    let mut words = rows;
    let meshes = Meshes::new();
    let a = builder::settle(b, store, &mut words, &meshes.lent(), ri);
    let level = a.map_or(b.level, |s| s.builder.level);
    left_by(a.map(|s| s.into()), level, words[0])
}

fn settle_lent(b: Builder, ri: u64, store: &[f64], rows: [u64; 2]) -> Left {
    let mut words = rows;
    let meshes = Meshes::new();
    let a = through::settle_through(b, store, &mut words, &meshes.lent(), ri);
    left_by(a.answer, a.builder.level, words[0])
}

// The record of a word without a rest.
fn record_of(w: u64) -> RowRecord {
    RowRecord {
        kind: (rows::word_kind(w) % 256) as u8,
        level: rows::word_level(w),
        value: rows::word_value(w),
    }
}

// Row 1 replaced by Repulsive.
fn replace(rt: &impl Print, rows: [u64; 2]) -> io::Result<()> {
    let mut words = rows;
    let records = through::with_row(
        [record_of(words[0]), record_of(words[1])],
        1,
        lent::record_of(SlabResolution::Repulsive),
    );
    rows::replace_in(&mut words, 1, SlabResolution::Repulsive);
    say(
        rt,
        "row 0, row 1 being replaced",
        word_of(records[0]),
        words[0],
    )?;
    say(
        rt,
        "row 1, replaced by Repulsive",
        word_of(records[1]),
        words[1],
    )
}

// Words into records that hold Repulsive, beside the move of the same words to three lists that do.
fn gather(rt: &impl Print, what: &str, words: [u64; 2]) -> io::Result<()> {
    let r = lent::record_of(SlabResolution::Repulsive);
    let records = through::with_words([r, r], &words);
    let mut kinds = [1; 2];
    let mut levels = [0; 2];
    let mut values = [0; 2];
    let _ = words::words_to_rows(2, &words, &mut kinds, &mut levels, &mut values);
    say(
        rt,
        what,
        word_of(records[0]),
        rows::word_of(kinds[0], levels[0], values[0]),
    )
}

// rmin 0, rmax 1, dr 1, two dihedral bins, top level 1: a slice of two slabs.
fn settings() -> Grid {
    Grid {
        rmin: 0.0,
        rmax: 1.0,
        dr: 1.0,
        omega_step: 3.0,
        threshold: 0.1,
        beta: 1.0,
        n_r: 0,
        n_omega: 0,
    }
}

// Energies of a slab of level 1 that settles as Mesh nearest: zeros but for one.
fn smooth() -> [f64; 1764] {
    let mut e = [0.0; 1764];
    e[100] = 0.05;
    e
}

// The builder that a call answers; one that every call refuses where it does not.
fn accepted(a: Result<Builder, Refusal>) -> Builder {
    a.unwrap_or(Builder {
        grid: settings(),
        top: 99,
        level: 99,
        packed: 0,
    })
}

// A slice with one slab set; a settle of a bin beyond, which is refused; one that is accepted, and drops the level; a
// record replaced; words into records, without and with a rest.
fn main(rt: HostRuntime) -> io::Result<()> {
    let mut store = [1.0; 3528];
    let mut words = [u64::MAX; 2];
    let meshes = Meshes::new();
    let b = accepted(builder::fresh(settings(), 1, &mut store, &mut words, &meshes.lent()));
    let c = accepted(builder::set(b, &mut store, &mut words, 0, 0, &smooth()));
    let beyond = settle_by_value(c, 1, &store, words);
    compare(
        &rt,
        "settle, a bin beyond",
        settle_lent(c, 1, &store, words),
        beyond,
    )?;
    let settled = settle_by_value(c, 0, &store, words);
    compare(&rt, "settle", settle_lent(c, 0, &store, words), settled)?;
    replace(&rt, words)?;
    gather(&rt, "row 0, gathered over Repulsive", words)?;
    gather(
        &rt,
        "row 0, where word 1 has a rest",
        [words[0], 281474976710656],
    )
}
