// The long-range tail of a table file: what a host adds beyond rmax.
#![tactic(auto)]

ghost use Rattle.std.specs.Prelude.{◌≡◌, ◌+◌, ◌*◌, ◌≤◌, length, take, drop, leb};
ghost use Rattle.std.specs.Float.{binary64};
ghost use Rattle.std.specs.Float.Ieee.{of_bits};
ghost use Rattle.table.specs.Bytes.{items, number_at};
ghost use Rattle.table.specs.Read.{f64_at};
ghost use Rattle.table.specs.Tail.{term_of};
ghost use Rattle.tail.specs.Rule.{term_energy, sum_from};
ghost use Rattle.tail.specs.Reading.{tail_values, tail_out};

use refusals::Refusal;
use table::{Section, Table};

// The number in four bytes that are inside the file.
#[tactic(auto, using(table::proofs::Numbers::four), unfolding(table::specs::Bytes::number_of))]
fn u32_inside(file: &[u8], at: u64) -> u32
    requires { at + 4 ≤ length file.now }
    ensures { result ≡ number_at 4 file.now at }
{
    let i = at as usize;
    table::u32_from_le_bytes(file[i], file[i + 1], file[i + 2], file[i + 3])
}

// The float in eight bytes that are inside the file: `float_at` of `table` would ask of each whether they are.
#[tactic(auto, using(table::proofs::Numbers::eight))]
fn f64_inside(file: &[u8], at: u64) -> f64
    requires { at + 8 ≤ length file.now }
    ensures { result ≡ f64_at file.now at }
{
    let low = u32_inside(file, at) as u64;
    let high = u32_inside(file, at + 4) as u64;
    bits::float64(high * 4294967296 + low)
}

// The energy of the term at a byte. In a damaged file its power is any number.
#[tactic(auto, using(table::proofs::Items::term_at_lem), unfolding(crate::specs::Rule::term_energy))]
fn term_energy(file: &[u8], at: u64, r: f64) -> f64
    requires { at + 20 ≤ length file.now }
    ensures { result ≡ term_energy r (term_of (take 20 (drop at file.now))) }
{
    let coefficient = f64_inside(file, at);
    let kappa = f64_inside(file, at + 8);
    let power = u32_inside(file, at + 16);
    (coefficient * float::exp(-kappa * r)) / float::power(r, power)
}

// The sum of the terms' energies, from -0.0 on.
fn terms_sum(file: &[u8], terms: Section, r: f64) -> f64
    requires { terms.start + terms.count * 20 ≤ length file.now }
    ensures { result ≡ sum_from r (of_bits binary64 0x8000_0000_0000_0000)
        (items term_of 20 file.now terms.start terms.count) }
{
    let mut sum: f64 = -0.0;
    for i in 0..terms.count {
        sum += term_energy(file, terms.start + i * 20, r);
    }
    sum
}

// Question 19: the terms and the prefactor behind them are inside a file of n bytes. Count and start are any numbers
// that a host hands in, so nothing is added up.
fn tail_inside(terms: Section, n: u64) -> bool
    ensures { result ≡ leb (terms.start + terms.count * 20 + 8) n }
{
    if n < terms.start {
        return false;
    }
    let left = n - terms.start;
    if left < 8 {
        return false;
    }
    terms.count <= (left - 8) / 20
}

// The tail's energy at a distance.
#[tactic(auto, using(float::proofs::Tests::nan_test, crate::proofs::Laws::no_distance_lem, crate::proofs::Laws::no_terms_lem, crate::proofs::Laws::no_bytes, crate::proofs::Laws::summed))]
pub fn tail_energy(t: Table, file: &[u8], r: f64) -> Result<f64, Refusal>
    ensures { tail_values result ≡ tail_out file.now t r }
{
    if r != r {
        return Err(Refusal::Query);
    }
    if t.terms == 0 {
        return Ok(0.0);
    }
    let terms = Section {
        start: t.tail_start,
        count: t.terms,
    };
    if !tail_inside(terms, file.len() as u64) {
        return Err(Refusal::NotLent);
    }
    let sum = terms_sum(file, terms, r);
    Ok(f64_inside(file, terms.start + terms.count * 20) * sum)
}
