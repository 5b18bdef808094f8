// What a span asks: 18 of its ends and the dihedral angle, 26 of its ends, 19 of its rows and their energies. Counts
// and starts are any numbers that a host hands in, so nothing is added up before it is known to fit.
ghost use Rattle.std.specs.Prelude.{◌≡◌, ◌&&◌, ◌+◌, ◌-◌, ◌*◌, ◌≤◌, ◌<◌, length, take, drop, leb, ltb};
ghost use Rattle.lists.specs.Lists.{all_up_to};
ghost use Rattle.table.specs.File.{entry_of};
ghost use Rattle.reading.specs.Reading.{entry_at};
ghost use Rattle.span.specs.Spans.{ends_valid, ends_inside, entry_touched, rows_touched};

use crate::places::entry_inside;
use grid::Grid;
use reading::outside;
use table::{Section, Table};

// Question 18.
#[tactic(auto, using(float::proofs::Tests::nan_test), unfolding(crate::specs::Spans::ends_valid))]
pub(crate) fn ends_valid(low: f64, high: f64, omega: f64) -> bool
    ensures { result ≡ ends_valid low high omega }
{
    !(low != low) & (!(high != high) & ieee::is_finite(omega))
}

// Question 26.
#[tactic(auto, unfolding(crate::specs::Spans::ends_inside))]
pub(crate) fn ends_inside(g: Grid, low: f64, high: f64) -> bool
    ensures { result ≡ ends_inside g low high }
{
    !(high < low) & (!outside(g, low) & !outside(g, high))
}

// Question 19 of n energies from place `offset` on: below the count, and inside a file of `length` bytes.
fn energies_inside(energies: Section, offset: u64, n: u64, length: u64) -> bool
    requires { offset + n < 18446744073709551616 }
    ensures { result ≡ leb (offset + n) energies.count && leb (energies.start + (offset + n) * 4) length }
{
    let end = offset + n;
    if length < energies.start {
        return false;
    }
    (end <= energies.count) & (end <= (length - energies.start) / 4)
}

// Question 19 of the row that starts at a byte.
fn entry_touched(t: Table, file: &[u8], at: u64) -> bool
    requires { at + 10 ≤ length file.now }
    ensures { result ≡ entry_touched file.now t (entry_of (take 10 (drop at file.now))) }
{
    let e = entry_inside(file, at);
    if e.kind <= 1 {
        return true;
    }
    if (3 < e.kind) | (t.levels <= e.level as u64) {
        return false;
    }
    let energies = Section {
        start: t.energies_start,
        count: t.energies,
    };
    let n = mesh::per_level(e.level);
    energies_inside(energies, e.offset as u64, n, file.len() as u64)
}

// Question 19 of the row of bin i at a dihedral bin: below the row count, and inside a file of `length` bytes.
fn slab_inside(rows: Section, i: u64, n: u64, oi: u64, length: u64) -> bool
    requires { 1 ≤ n }
    ensures { result ≡ ltb (i * n + oi) rows.count && leb (rows.start + (i * n + oi) * 10 + 10) length }
{
    if rows.count <= oi {
        return false;
    }
    if length <= rows.start {
        return false;
    }
    let room = (length - rows.start) / 10;
    if room <= oi {
        return false;
    }
    (i <= (rows.count - oi - 1) / n) & (i <= (room - oi - 1) / n)
}

// Question 19 of the rows of `count` bins that are inside the file.
fn entries_touched(t: Table, file: &[u8], first: u64, count: u64, oi: u64) -> bool
    requires { (1 ≤ t.grid.n_omega)
        × (t.rows_start + ((first + (count - 1)) * t.grid.n_omega + oi) * 10 + 10 ≤ length file.now) }
    ensures { result ≡ all_up_to count (λ i. entry_touched file.now t
        (entry_at file.now t ((first + i) * t.grid.n_omega + oi))) }
{
    let mut touched = true;
    for i in 0..count {
        let at = t.rows_start + ((first + i) * t.grid.n_omega + oi) * 10;
        touched &= entry_touched(t, file, at);
    }
    touched
}

// Question 19.
pub(crate) fn rows_touched(t: Table, file: &[u8], first: u64, last: u64, omega: f64) -> bool
    requires { (first ≤ last) × (last < 18446744073709551615) }
    ensures { result ≡ rows_touched file.now t first last omega }
{
    if !((0 < t.grid.n_r) & (0 < t.grid.n_omega)) {
        return false;
    }
    let rows = Section {
        start: t.rows_start,
        count: t.rows,
    };
    let oi = grid::dihedral_bin(omega, t.grid.omega_step, t.grid.n_omega);
    if !slab_inside(rows, last, t.grid.n_omega, oi, file.len() as u64) {
        return false;
    }
    entries_touched(t, file, first, last - first + 1, oi)
}
