// The settings of a table against an atom.
ghost use Rattle.std.specs.Prelude.{◌≡◌, ◌≤◌};
ghost use Rattle.refusals.specs.Numbers.{asked};
ghost use Rattle.grid.specs.Atom.{atom_in_range, bin_count, atom_count_valid, atom_slabs_fit, atom_question, atom_counted, atom_grid_range, atom_grid_valid};

use crate::AtomGrid;
use refusals::{Asked, Refusal};

// Question 1.
#[tactic(auto, unfolding(crate::specs::Atom::atom_in_range))]
fn atom_in_range(g: AtomGrid) -> bool
    ensures { result ≡ atom_in_range g }
{
    ieee::is_finite(g.rmin)
        & ((g.rmin < g.rmax)
            & (crate::positive(g.dr)
                & (crate::positive(g.beta)
                    & (ieee::is_finite(g.threshold) & !(g.threshold < 0.0)))))
}

fn bin_count(n: u64) -> bool
    ensures { result ≡ bin_count n }
{
    (1 <= n) & (n <= 65535)
}

// Question 3.
#[tactic(auto, unfolding(crate::specs::Atom::atom_count_valid))]
fn atom_count_valid(g: AtomGrid) -> bool
    ensures { result ≡ atom_count_valid g }
{
    bin_count(g.n_r) & (g.n_r == crate::distance_count(g.rmin, g.rmax, g.dr))
}

// Question 5, once the others are answered yes.
fn atom_slabs_fit(n: u64, top: u64) -> bool
    requires { (n ≤ 65535) × (top ≤ 15) }
    ensures { result ≡ atom_slabs_fit n top }
{
    n * mesh::vertex_count(top as u8) <= 4294967295
}

// Questions 1 to 5 of a held builder: the first one that is answered no.
#[tactic(auto, using(refusals::proofs::Numbers::numbered), unfolding(lists::specs::Questions::ask, crate::specs::Atom::atom_question))]
pub fn atom_question(g: AtomGrid, top: u64, level: u64) -> Asked
    ensures { asked result ≡ atom_question g top level }
{
    if !atom_in_range(g) {
        return Err(Refusal::Settings);
    }
    if !crate::levels_valid(top, level) {
        return Err(Refusal::Level);
    }
    if !atom_count_valid(g) {
        return Err(Refusal::BinCount);
    }
    if !crate::own_count(g.n_r, g.dr, g.rmin) {
        return Err(Refusal::OwnCount);
    }
    if !atom_slabs_fit(g.n_r, top) {
        return Err(Refusal::TooManyEnergies);
    }
    Ok(())
}

// The settings with the count that they give.
#[tactic(auto, unfolding(crate::specs::Atom::atom_counted))]
pub fn atom_counted(g: AtomGrid) -> AtomGrid
    ensures { result ≡ atom_counted g }
{
    AtomGrid {
        n_r: crate::distance_count(g.rmin, g.rmax, g.dr),
        ..g
    }
}

// Question 14 of a table's grid and level count, but for the slabs.
fn atom_grid_range(g: AtomGrid, levels: u64) -> bool
    ensures { result ≡ atom_grid_range g levels }
{
    ieee::is_finite(g.rmin)
        & (crate::positive(g.dr)
            & ((1 <= levels)
                & ((levels <= 16) & (bin_count(g.n_r) & crate::own_count(g.n_r, g.dr, g.rmin)))))
}

// Question 14 of a table's grid and level count.
pub fn atom_grid_valid(g: AtomGrid, levels: u64) -> bool
    ensures { result ≡ atom_grid_valid g levels }
{
    if !atom_grid_range(g, levels) {
        return false;
    }
    atom_slabs_fit(g.n_r, levels - 1)
}
