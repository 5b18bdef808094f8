// The settling of one slab.
ghost use Rattle.std.specs.Prelude.{◌≡◌, ◌+◌, ◌%◌, ◌^◌, ◌&&◌, ◌||◌, if◌then◌else◌, from_bits, nat_le};
ghost use Rattle.std.specs.Float.{binary64};
ghost use Rattle.mesh.specs.Lent.{lent};
ghost use Rattle.mesh.specs.Levels.{vertex_count};
ghost use Rattle.rows.specs.Words.{word_rows};
ghost use Rattle.rows.specs.Rows.{Rows, row_with, rows_of};
ghost use Rattle.settling.specs.Gradient.{repulsive, all_repulsive, sum_from, mean_narrowed};
ghost use Rattle.settling.specs.Settling.{by_gradient, verdict, verdict_of, new_row, replaced_by, steeper_of, settles, packed_after, comparisons_for};
ghost use Rattle.settling.specs.declared.Verdict.TheVariants.{Empty};
ghost use Rattle.settling.specs.Internal.{stays, becomes, left_row, is_clear, packed_in};

use crate::gradient::Slab;
use crate::{Tally, Verdict, gradient};
use mesh::Mesh;
use rows::SlabResolution;

#[tactic(auto, unfolding(crate::specs::Gradient::repulsive))]
fn is_repulsive(beta: f64, e: f64) -> bool
    ensures { result ≡ repulsive beta e }
{
    gradient::weight(beta, e) - 1.0 < 1e-4 - 1.0
}

#[tactic(auto, using(lists::proofs::Loops::every_fails, lists::proofs::Loops::every_next, lists::proofs::Loops::every_end), unfolding(crate::specs::Gradient::all_repulsive))]
pub(crate) fn all_repulsive(beta: f64, energies: &[f64]) -> bool
    ensures { result ≡ all_repulsive beta energies.now }
{
    for e in energies {
        if !is_repulsive(beta, *e) {
            return false;
        }
    }
    true
}

// The sum in index order, from -0.0.
#[tactic(auto, using(crate::proofs::Sums::sum_turn, crate::proofs::Sums::sum_end))]
fn sum(energies: &[f64]) -> f64
    ensures { result ≡ sum_from (from_bits binary64 0x8000_0000_0000_0000) energies.now }
{
    let mut x = -0.0;
    for e in energies {
        x += *e;
    }
    x
}

#[tactic(auto, unfolding(crate::specs::Gradient::mean_narrowed))]
fn mean_narrowed(energies: &[f64]) -> f32
    ensures { result ≡ mean_narrowed energies.now }
{
    ieee::narrow(sum(energies) / float::of_u64(energies.len() as u64))
}

#[tactic(auto, unfolding(crate::specs::Settling::by_gradient))]
pub(crate) fn by_gradient(threshold: f64, energies: &[f64], x: f64) -> Verdict
    ensures { result ≡ by_gradient threshold energies.now x }
{
    if x < threshold / 10.0 {
        return Verdict::Isotropic(mean_narrowed(energies));
    }
    if x < threshold {
        return Verdict::Smooth(x);
    }
    Verdict::Rough(x)
}

fn steeper_of(x: f64, v: Verdict) -> f64
    ensures { result ≡ steeper_of x v }
{
    match v {
        Verdict::Smooth(y) | Verdict::Rough(y) => float::max(x, y),
        Verdict::Empty | Verdict::Blocked | Verdict::Isotropic(_) => x,
    }
}

// The slab's gradient was worked out.
pub fn settles(v: Verdict) -> bool
    ensures { result ≡ settles v }
{
    matches!(
        v,
        Verdict::Isotropic(_) | Verdict::Smooth(_) | Verdict::Rough(_)
    )
}

// What settling finds of a slab's energies, at a level that a builder can have.
#[tactic(auto, using(crate::proofs::Slopes::by_lines_lem, mesh::proofs::Laws::count_le), unfolding(crate::specs::Settling::verdict, crate::specs::Internal::by_lines))]
fn verdict(threshold: f64, beta: f64, mesh: &Mesh, energies: &[f64], level: u8) -> Verdict
    ensures { result ≡ (if nat_le level 15
        then verdict threshold beta (lent mesh.now) (vertex_count level) energies.now else Empty) }
{
    if 15 < level {
        return Verdict::Empty;
    }
    if all_repulsive(beta, energies) {
        return Verdict::Blocked;
    }
    let n = mesh::vertex_count(level) as u32;
    let x = gradient::gradient(&Slab {
        mesh,
        n,
        energies,
        beta,
    });
    by_gradient(threshold, energies, x)
}

// The same of a row; one that holds no energies has none to settle.
pub fn verdict_of(
    threshold: f64,
    beta: f64,
    mesh: &Mesh,
    energies: &[f64],
    level: u8,
    row: SlabResolution,
) -> Verdict
    ensures { result ≡ (if nat_le level 15
        then verdict_of threshold beta (lent mesh.now) (vertex_count level) (row_with row energies.now) else Empty) }
{
    match row {
        SlabResolution::Mesh(_, _) => verdict(threshold, beta, mesh, energies, level),
        SlabResolution::Scalar(_) | SlabResolution::Repulsive => Verdict::Empty,
    }
}

fn stays(v: Verdict) -> bool
    ensures { result ≡ stays v }
{
    matches!(v, Verdict::Empty | Verdict::Rough(_))
}

// The row that takes a slab's place; where the row stays, it is not used.
fn becomes(level: u8, v: Verdict) -> SlabResolution
    ensures { result ≡ becomes level v }
{
    match v {
        Verdict::Isotropic(x) => SlabResolution::Scalar(x),
        Verdict::Smooth(_) => SlabResolution::Mesh(level, false),
        Verdict::Empty | Verdict::Blocked | Verdict::Rough(_) => SlabResolution::Repulsive,
    }
}

// The row after a verdict.
#[tactic(auto, unfolding(crate::specs::Internal::left_row))]
fn left_row(level: u8, row: SlabResolution, v: Verdict) -> SlabResolution
    ensures { result ≡ left_row level row v }
{
    if stays(v) {
        return row;
    }
    becomes(level, v)
}

fn is_clear(row: SlabResolution) -> bool
    ensures { result ≡ is_clear row }
{
    !matches!(row, SlabResolution::Repulsive)
}

// The packed energies of a row: n·n of its level if it is Mesh.
pub fn packed_row(row: SlabResolution) -> u64
    ensures { result ≡ packed_in row }
{
    match row {
        SlabResolution::Mesh(level, _) => mesh::per_level(level),
        SlabResolution::Scalar(_) | SlabResolution::Repulsive => 0,
    }
}

// The number of packed energies after rows with `old` of them became rows with `new`, wrapping.
#[tactic(auto, unfolding(crate::specs::Settling::packed_after))]
pub fn packed_after(packed: u64, old: u64, new: u64) -> u64
    ensures { result ≡ packed_after packed old new }
{
    let without = std::num::wrapping_sub_u64(packed, old);
    std::num::wrapping_add_u64(without, new)
}

// How many slabs reached the gradient, with one slab more.
#[tactic(auto, unfolding(crate::specs::Settling::comparisons_for))]
fn reached_with(reached: u64, v: Verdict) -> u64
    ensures { result ≡ (reached + comparisons_for 1 v) % 2 ^ 64 }
{
    if settles(v) {
        return std::num::wrapping_add_u64(reached, 1);
    }
    reached
}

// The slice with one slab more.
pub fn tallied(level: u8, t: Tally, row: SlabResolution, v: Verdict) -> Tally
    ensures { result ≡ record {
      gradient = steeper_of t.gradient v;
      settled = t.settled || settles v;
      clear = t.clear && is_clear (left_row level row v);
      packed = packed_after t.packed (packed_in row) (packed_in (left_row level row v));
      reached = (t.reached + comparisons_for 1 v) % 2 ^ 64;
    } }
{
    let left = left_row(level, row, v);
    Tally {
        gradient: steeper_of(t.gradient, v),
        settled: t.settled | settles(v),
        clear: t.clear & is_clear(left),
        packed: packed_after(t.packed, packed_row(row), packed_row(left)),
        reached: reached_with(t.reached, v),
    }
}

// Puts the settled row in its place; a row that stays keeps its bits.
#[tactic(auto, using(crate::proofs::Changes::row_stays, crate::proofs::Changes::row_becomes))]
pub fn replace_by(
    kinds: &mut [u8],
    levels: &mut [u8],
    values: &mut [u32],
    s: u64,
    level: u8,
    v: Verdict,
)
    ensures { ◌≡◌ {A = Rows}
        (rows_of kinds.new levels.new values.new)
        (replaced_by (rows_of kinds.old levels.old values.old) s (new_row level v)) }
{
    if stays(v) {
        return;
    }
    rows::replace(kinds, levels, values, s, becomes(level, v));
}

#[tactic(auto, using(crate::proofs::Changes::row_stays, crate::proofs::Changes::row_becomes))]
pub fn replace_word_by(words: &mut [u64], s: u64, level: u8, v: Verdict)
    ensures { ◌≡◌ {A = Rows} (word_rows words.new) (replaced_by (word_rows words.old) s (new_row level v)) }
{
    if stays(v) {
        return;
    }
    rows::replace_in(words, s, becomes(level, v));
}
