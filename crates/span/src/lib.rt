// Distances known within a span: the bins that the span touches, and the smallest and largest energy in their rows.
#![tactic(auto)]

ghost use Rattle.std.specs.Prelude.{◌≡◌};
ghost use Rattle.span.specs.Spans.{span_values, span_out};

use crate::energies::extremes_of;
use crate::questions::{ends_inside, ends_valid, rows_touched};
use refusals::Refusal;
use table::Table;

mod energies;
mod places;
mod questions;

// The energies met so far: NaN twice before the first one. Of the Scalar rows among them, how many are a NaN.
#[derive(Clone, Copy)]
pub struct Extremes {
    pub smallest: f64,
    pub largest: f64,
    pub scalar_nans: u64,
}

// The first and the last distance bin, and the energies in their rows.
#[derive(Clone, Copy)]
pub struct Spanned {
    pub first: u64,
    pub last: u64,
    pub smallest: f64,
    pub largest: f64,
    pub scalar_nans: u64,
}

// The bins and the energies of the distances from `low` to `high`, at a dihedral angle.
pub fn span(t: Table, file: &[u8], low: f64, high: f64, omega: f64) -> Result<Spanned, Refusal>
    ensures { span_values result ≡ span_out file.now t low high omega }
{
    if !ends_valid(low, high, omega) {
        return Err(Refusal::Query);
    }
    if !ends_inside(t.grid, low, high) {
        return Err(Refusal::Span);
    }
    let first = grid::distance_bin(low, t.grid.rmin, t.grid.dr, t.grid.n_r);
    let last = grid::distance_bin(high, t.grid.rmin, t.grid.dr, t.grid.n_r);
    if !rows_touched(t, file, first, last, omega) {
        return Err(Refusal::NotLent);
    }
    let x = extremes_of(t, file, first, last, omega);
    Ok(Spanned {
        first,
        last,
        smallest: x.smallest,
        largest: x.largest,
        scalar_nans: x.scalar_nans,
    })
}
