// The accident that started this port: a slice is settled, the level drops, and a job that was restarted settles a
// slice of the level that has gone. Document 01 refuses that with 11; the Rust accepts it, and its table then has more
// energies than its rows account for.
ghost use Rattle.std.specs.Prelude.{◌<◌};

use crate::{begun, number, say, settings, settled, written};
use builder::Builder;
use std::io;

// A table of slices of n_omega slabs each, twelve in all.
#[derive(Clone, Copy)]
struct Twelve {
    rmax: f64,
    omega_step: f64,
    n_omega: u64,
    last: u64,
}

// Energies of a slab of level 1 that settles as Mesh nearest at threshold 0.1: zeros but for one.
fn smooth() -> [f64; 1764] {
    let mut e = [0.0; 1764];
    e[100] = 0.05;
    e
}

// Sets the twelve slabs of a table, and answers how many were refused.
fn set_twelve(b: Builder, n_omega: u64, store: &mut [f64], words: &mut [u64]) -> u64
    requires { 0 < n_omega }
{
    let e = smooth();
    let mut refused: u64 = 0;
    for s in 0..12 {
        if builder::set(b, store, words, s / n_omega, s % n_omega, &e).is_err() {
            refused = refused.saturating_add(1);
        }
    }
    refused
}

// How many of the rows are Mesh nearest, of level 1: kind 2 · 2^40 and level 1 · 2^32.
fn nearest_rows(words: &[u64]) -> u64 {
    words.iter().filter(|w| **w == 2203318222848).count() as u64
}

// How many entries of two lists differ.
fn others<T: PartialEq>(a: &[T], b: &[T]) -> u64 {
    a.iter().zip(b).filter(|(x, y)| x != y).count() as u64
}

// How many of the store's energies are not those that were set.
fn other_energies(store: &[f64]) -> u64 {
    let e = smooth();
    let mut n: u64 = 0;
    for slab in store.chunks_exact(1764) {
        n = n.saturating_add(others(slab, &e));
    }
    n
}

// Settles slice ri of a level that has gone: 11, and nothing is altered.
fn settle_late(
    rt: &impl Print,
    b: Builder,
    ri: u64,
    store: &[f64; 21168],
    before: [u64; 12],
) -> io::Result<()> {
    let mut words = before;
    let mut once = [7; 84900];
    let mut twice = [7; 84900];
    say(rt, "  bytes", written(b, store, &words, &mut once), 84852)?;
    let a = settled(b, ri, store, &mut words);
    say(rt, "  settled at a level that has gone", number(a), 11)?;
    say(rt, "  comparisons", a.map_or(0, |s| s.comparisons), 0)?;
    let c = a.map_or(b, |s| s.builder);
    say(rt, "  level after it", c.level, 0)?;
    say(rt, "  bytes", written(c, store, &words, &mut twice), 84852)?;
    say(rt, "  bytes that differ", others(&once, &twice), 0)?;
    say(
        rt,
        "  energies that are not those set",
        other_energies(store),
        0,
    )?;
    say(rt, "  rows that differ", others(&before, &words), 0)
}

// Sets every slab of the table at level 1. The first slice is settled and the level drops; then the last slice is
// settled, which is the same one where there is one alone.
fn settle_both(rt: &impl Print, what: &str, table: Twelve, comparisons: u64) -> io::Result<()>
    requires { 0 < table.n_omega }
{
    let mut store = [1.0; 21168];
    let mut words = [u64::MAX; 12];
    let g = settings(table.rmax, table.omega_step);
    let b = begun(g, 1, &mut store, &mut words);
    print!(rt; "{what}")?;
    let refused = set_twelve(b, table.n_omega, &mut store, &mut words);
    say(rt, ", sets refused", refused, 0)?;
    let a = settled(b, 0, &store, &mut words);
    say(rt, "  settled", number(a), 0)?;
    say(
        rt,
        "  comparisons",
        a.map_or(0, |s| s.comparisons),
        comparisons,
    )?;
    let c = a.map_or(b, |s| s.builder);
    say(rt, "  level after it", c.level, 0)?;
    say(
        rt,
        "  rows that are Mesh nearest of level 1",
        nearest_rows(&words),
        table.n_omega,
    )?;
    settle_late(rt, c, table.last, &store, words)
}

pub(crate) fn settled_twice(rt: &impl Print) -> io::Result<()> {
    let one_slice = Twelve {
        rmax: 1.0,
        omega_step: 0.5235987755982988,
        n_omega: 12,
        last: 0,
    };
    let two_slices = Twelve {
        rmax: 2.0,
        omega_step: 1.0471975511965976,
        n_omega: 6,
        last: 1,
    };
    settle_both(
        rt,
        "twelve slabs of level 1 in one slice",
        one_slice,
        211680,
    )?;
    settle_both(
        rt,
        "twelve slabs of level 1 in two slices",
        two_slices,
        105840,
    )
}
