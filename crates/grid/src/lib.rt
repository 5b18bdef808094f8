// The settings of a table's grid, the bin counts that they give, and the bins of a reading.
#![tactic(auto)]

ghost use Rattle.std.specs.Prelude.{◌≡◌, ◌≤◌};
ghost use Rattle.std.specs.Float.Ieee.{lt};
ghost use Rattle.refusals.specs.Numbers.{asked};
ghost use Rattle.grid.specs.Bins.{nearest_bin, distance_count, dihedral_count, table_rmax, distance_bin, dihedral_bin};
ghost use Rattle.grid.specs.Settings.{above, in_range, levels_valid, bins_in_range, counts_valid, own_count, slabs_fit, question, counted, fresh_question, grid_range, grid_valid};

use refusals::{Asked, Refusal};

mod atom;

pub use atom::{atom_counted, atom_grid_valid, atom_question};

// The settings beside the bin counts that they give. In a table that was read, rmax is the table's own.
#[repr(C)]
#[derive(Clone, Copy)]
pub struct Grid {
    pub rmin: f64,
    pub rmax: f64,
    pub dr: f64,
    pub omega_step: f64,
    pub threshold: f64,
    pub beta: f64,
    pub n_r: u64,
    pub n_omega: u64,
}

// The settings of a table against an atom: it has no dihedral angle.
#[repr(C)]
#[derive(Clone, Copy)]
pub struct AtomGrid {
    pub rmin: f64,
    pub rmax: f64,
    pub dr: f64,
    pub threshold: f64,
    pub beta: f64,
    pub n_r: u64,
}

// x / step, to the nearest whole number, in floats.
#[tactic(auto, unfolding(crate::specs::Bins::nearest_bin))]
fn nearest_bin(x: f64, step: f64) -> u64
    ensures { result ≡ nearest_bin x step }
{
    float::to_u64(x / step + 0.5)
}

#[tactic(auto, unfolding(crate::specs::Bins::distance_count))]
pub fn distance_count(rmin: f64, rmax: f64, dr: f64) -> u64
    ensures { result ≡ distance_count rmin rmax dr }
{
    nearest_bin(rmax - rmin, dr)
}

#[tactic(auto, unfolding(crate::specs::Bins::dihedral_count))]
pub fn dihedral_count(step: f64) -> u64
    ensures { result ≡ dihedral_count step }
{
    nearest_bin(float::TAU, step)
}

// The table's own rmax, by one fused operation.
#[tactic(auto, unfolding(crate::specs::Bins::table_rmax))]
pub fn table_rmax(n: u64, dr: f64, rmin: f64) -> f64
    ensures { result ≡ table_rmax n dr rmin }
{
    ieee::mul_add(float::of_u64(n), dr, rmin)
}

// A distance above the table's own rmax. With n less 2 to the power of -20 two operations stay below it, which spares most distances the fused one.
pub fn above_rmax(r: f64, n: u64, dr: f64, rmin: f64) -> bool
    ensures { result ≡ lt (table_rmax n dr rmin) r }
{
    if n < 4294967296 {
        // of 32 bits the machine makes a float at once
        let m = float::of_u64((n as u32) as u64);
        let near = (m - 9.5367431640625e-7) * dr + rmin;
        if (1 <= n) & ((0.0 < dr) & (ieee::is_finite(near) & (r < near))) {
            return false;
        }
    }
    table_rmax(n, dr, rmin) < r
}

// The bin of a distance; from rmax on it is the last one.
#[tactic(auto, unfolding(crate::specs::Bins::distance_bin))]
pub fn distance_bin(r: f64, rmin: f64, dr: f64, n: u64) -> u64
    ensures { result ≡ distance_bin r rmin dr n }
{
    let b = nearest_bin(r - rmin, dr);
    if n == 0 {
        return 0;
    }
    if b < n { b } else { n - 1 }
}

// The bin of a dihedral angle; near TAU it is the first one again. A step that gives n leaves nothing to divide.
pub fn dihedral_bin(omega: f64, step: f64, n: u64) -> u64
    ensures { result ≡ dihedral_bin omega step n }
{
    let b = nearest_bin(float::rem_tau(omega), step);
    if n == 0 {
        return 0;
    }
    if b < n {
        return b;
    }
    if b == n {
        return 0;
    }
    b % n
}

// Finite and above 0.
#[tactic(auto, unfolding(crate::specs::Settings::above))]
fn positive(x: f64) -> bool
    ensures { result ≡ above x }
{
    ieee::is_finite(x) & (0.0 < x)
}

// Question 1.
#[tactic(auto, unfolding(crate::specs::Settings::in_range))]
pub fn in_range(g: Grid) -> bool
    ensures { result ≡ in_range g }
{
    ieee::is_finite(g.rmin)
        & ((g.rmin < g.rmax)
            & (positive(g.dr)
                & (positive(g.omega_step)
                    & (positive(g.beta) & (ieee::is_finite(g.threshold) & !(g.threshold < 0.0))))))
}

// Question 2.
#[tactic(auto, unfolding(crate::specs::Settings::levels_valid))]
pub fn levels_valid(top: u64, level: u64) -> bool
    ensures { result ≡ levels_valid top level }
{
    (top <= 15) & (level <= top)
}

// Question 3 of a fresh builder: both counts from 1 to 65,535.
#[tactic(auto, unfolding(crate::specs::Settings::bins_in_range))]
pub fn bins_in_range(n: u64, m: u64) -> bool
    ensures { result ≡ bins_in_range n m }
{
    (1 <= n) & ((n <= 65535) & ((1 <= m) & (m <= 65535)))
}

// Question 3 of a held builder: they are also those that the settings give.
#[tactic(auto, unfolding(crate::specs::Settings::counts_valid))]
pub fn counts_valid(g: Grid) -> bool
    ensures { result ≡ counts_valid g }
{
    bins_in_range(g.n_r, g.n_omega)
        & ((g.n_r == distance_count(g.rmin, g.rmax, g.dr))
            & (g.n_omega == dihedral_count(g.omega_step)))
}

// Question 4: the distance count comes out the same with the table's own rmax.
#[tactic(auto, unfolding(crate::specs::Settings::own_count))]
pub fn own_count(n: u64, dr: f64, rmin: f64) -> bool
    ensures { result ≡ own_count n dr rmin }
{
    n == distance_count(rmin, table_rmax(n, dr, rmin), dr)
}

// Question 5, once the others are answered yes.
fn slabs_fit(n: u64, m: u64, top: u64) -> bool
    requires { (n ≤ 65535) × (m ≤ 65535) × (top ≤ 15) }
    ensures { result ≡ slabs_fit n m top }
{
    n * m * mesh::per_level(top as u8) <= 4294967295
}

// Questions 1 to 5 of a held builder: the first one that is answered no.
#[tactic(auto, using(refusals::proofs::Numbers::numbered), unfolding(lists::specs::Questions::ask, crate::specs::Settings::question))]
pub fn question(g: Grid, top: u64, level: u64) -> Asked
    ensures { asked result ≡ question g top level }
{
    if !in_range(g) {
        return Err(Refusal::Settings);
    }
    if !levels_valid(top, level) {
        return Err(Refusal::Level);
    }
    if !counts_valid(g) {
        return Err(Refusal::BinCount);
    }
    if !own_count(g.n_r, g.dr, g.rmin) {
        return Err(Refusal::OwnCount);
    }
    if !slabs_fit(g.n_r, g.n_omega, top) {
        return Err(Refusal::TooManyEnergies);
    }
    Ok(())
}

// The settings with the counts that they give.
#[tactic(auto, unfolding(crate::specs::Settings::counted))]
pub fn counted(g: Grid) -> Grid
    ensures { result ≡ counted g }
{
    Grid {
        n_r: distance_count(g.rmin, g.rmax, g.dr),
        n_omega: dihedral_count(g.omega_step),
        ..g
    }
}

// Questions 1 to 5 of a fresh builder.
pub fn fresh_question(g: Grid, top: u64) -> Asked
    ensures { asked result ≡ fresh_question g top }
{
    question(counted(g), top, top)
}

// Question 14 of a table's grid and level count, but for the slabs.
fn grid_range(g: Grid, levels: u64) -> bool
    ensures { result ≡ grid_range g levels }
{
    ieee::is_finite(g.rmin)
        & (positive(g.dr)
            & (positive(g.omega_step)
                & ((1 <= levels)
                    & ((levels <= 16)
                        & (bins_in_range(g.n_r, g.n_omega)
                            & ((g.n_omega == dihedral_count(g.omega_step))
                                & own_count(g.n_r, g.dr, g.rmin)))))))
}

// Question 14 of a table's grid and level count.
pub fn grid_valid(g: Grid, levels: u64) -> bool
    ensures { result ≡ grid_valid g levels }
{
    if !grid_range(g, levels) {
        return false;
    }
    slabs_fit(g.n_r, g.n_omega, levels - 1)
}
