// The energies in the rows of a span, once its questions are answered yes.
ghost use Rattle.std.specs.Prelude.{◌≡◌, true, ◌+◌, ◌*◌, ◌≤◌, ◌<◌, length, take, drop};
ghost use Rattle.lists.specs.Lists.{for_each};
ghost use Rattle.table.specs.Bytes.{number_at};
ghost use Rattle.table.specs.File.{entry_of};
ghost use Rattle.reading.specs.Resolve.{widened};
ghost use Rattle.span.specs.Spans.{included, scalar_included, entry_touched, entry_included, rows_touched, extremes_of};

use crate::Extremes;
use crate::places::{entry_inside, u32_inside};
use table::Table;

// One more energy.
#[tactic(auto, unfolding(crate::specs::Spans::included))]
fn included(e: f64, x: Extremes) -> Extremes
    ensures { result ≡ included e x }
{
    Extremes {
        smallest: float::min(x.smallest, e),
        largest: float::max(x.largest, e),
        scalar_nans: x.scalar_nans,
    }
}

// A Scalar row's energy.
fn scalar_included(e: f64, x: Extremes) -> Extremes
    requires { x.scalar_nans < 18446744073709551615 }
    ensures { result ≡ scalar_included e x }
{
    let mut y = included(e, x);
    if e != e {
        y.scalar_nans = x.scalar_nans + 1;
    }
    y
}

// A Mesh row's n energies, from place `offset` on.
fn mesh_included(file: &[u8], start: u64, offset: u64, n: u64, x: Extremes) -> Extremes
    requires { start + (offset + n) * 4 ≤ length file.now }
    ensures { result ≡ for_each n (λ k y. included (widened (number_at 4 file.now (start + (offset + k) * 4))) y) x }
{
    let mut y = x;
    for k in 0..n {
        y = included(bits::widened(u32_inside(file, start + (offset + k) * 4)), y);
    }
    y
}

// The energies of the row that starts at a byte.
fn entry_included(t: Table, file: &[u8], at: u64, x: Extremes) -> Extremes
    requires { (at + 10 ≤ length file.now) × (entry_touched file.now t (entry_of (take 10 (drop at file.now))) ≡ true)
        × (x.scalar_nans < 18446744073709551615) }
    ensures { result ≡ entry_included file.now t (entry_of (take 10 (drop at file.now))) x }
{
    let e = entry_inside(file, at);
    match e.kind {
        0 => scalar_included(bits::widened(e.scalar), x),
        1 => included(1.0 / 0.0, x),
        _ => mesh_included(
            file,
            t.energies_start,
            e.offset as u64,
            mesh::per_level(e.level),
            x,
        ),
    }
}

// The energies of the rows of the bins from the first to the last.
pub(crate) fn extremes_of(t: Table, file: &[u8], first: u64, last: u64, omega: f64) -> Extremes
    requires { (first ≤ last) × (last < 18446744073709551615) × (rows_touched file.now t first last omega ≡ true) }
    ensures { result ≡ extremes_of file.now t first last omega }
{
    let oi = grid::dihedral_bin(omega, t.grid.omega_step, t.grid.n_omega);
    let count = last - first + 1;
    let mut x = Extremes {
        smallest: 0.0 / 0.0,
        largest: 0.0 / 0.0,
        scalar_nans: 0,
    };
    for i in 0..count {
        let at = t.rows_start + ((first + i) * t.grid.n_omega + oi) * 10;
        x = entry_included(t, file, at, x);
    }
    x
}
