// What a reading asks first: question 18, whether the distance is outside, and where the row is.
ghost use Rattle.std.specs.Prelude.{◌≡◌};
ghost use Rattle.reading.specs.Resolve.{query_valid, outside};
ghost use Rattle.reading.specs.Internal.{row_place};

use crate::Query;
use crate::places::{items_inside, slab_below};
use grid::Grid;
use table::{Section, Table};

// Question 18.
#[tactic(auto, using(float::proofs::Tests::nan_test), unfolding(crate::specs::Resolve::query_valid, grid::specs::Settings::above))]
pub(crate) fn query_valid(q: &Query) -> bool
    ensures { result ≡ query_valid q.now }
{
    !(q.r != q.r)
        & (ieee::is_finite(q.omega) & (search::length_valid(q.a) & search::length_valid(q.b)))
}

// A distance below rmin or above the table's own rmax.
#[tactic(auto, unfolding(crate::specs::Resolve::outside))]
pub fn outside(g: Grid, r: f64) -> bool
    ensures { result ≡ outside g r }
{
    (r < g.rmin) | grid::above_rmax(r, g.n_r, g.dr, g.rmin)
}

// Where the row of a distance and an angle starts in a file of so many bytes, if there are bins and it is inside. It is
// compiled into each caller, as the short answers are.
#[inline(always)]
pub(crate) fn row_place(t: Table, length: u64, q: &Query) -> Option<u64>
    ensures { result ≡ row_place t length q.now }
{
    if (t.grid.n_r == 0) | (t.grid.n_omega == 0) {
        return None;
    }
    let ri = grid::distance_bin(q.r, t.grid.rmin, t.grid.dr, t.grid.n_r);
    let oi = grid::dihedral_bin(q.omega, t.grid.omega_step, t.grid.n_omega);
    let rows = Section {
        start: t.rows_start,
        count: t.rows,
    };
    let held = items_inside(rows, 10, length);
    let s = slab_below(ri, t.grid.n_omega, oi, held);
    if held <= s {
        return None;
    }
    Some(t.rows_start + s * 10)
}
