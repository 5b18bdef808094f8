// The walk over the sections of a file, and question 13.
ghost use Rattle.std.specs.Prelude.{◌≡◌, ◌+◌, ◌*◌, ◌≤◌, length};
ghost use Rattle.table.specs.Tail.{tail_size};
ghost use Rattle.table.specs.Read.{count_at, past, layout, laid_out, ended, table_laid_out, tail_at, grid_of, table_of};
ghost use Rattle.table.specs.Atom.{atom_grid_of, atom_table_of};
ghost use Rattle.table.specs.Internal.{SectionsInside, TailInside, TableSections};

use crate::bytes::{f64_in, u32_at, u32_in};
use crate::{AtomTable, Layout, Table};
use grid::{AtomGrid, Grid};

// The byte after the section at a byte, its items w bytes each.
fn past(file: &[u8], at: u64, w: u64) -> u64
    requires { (at ≤ 1099511627776) × (w ≤ 10) }
    ensures { (result ≡ past file.now at w) × (result ≤ at + 4 + 42949672950) }
{
    let n = u32_at(file, at) as u64;
    at + 4 + n * w
}

#[tactic(auto, unfolding(crate::specs::Read::layout))]
pub(crate) fn sections(file: &[u8]) -> Layout
    ensures { result ≡ layout file.now }
{
    let bins = past(file, 0, 8);
    let levels = past(file, bins, 4);
    let rows = past(file, levels, 4);
    let energies = past(file, rows, 10);
    Layout {
        bins,
        levels,
        rows,
        energies,
        end: past(file, energies, 4),
    }
}

// Question 13, with i numbers in section 1 and j in section 2.
#[tactic(auto, unfolding(crate::specs::Read::laid_out))]
pub(crate) fn laid_out(file: &[u8], p: Layout, i: u32, j: u32) -> bool
    ensures { result ≡ laid_out i j file.now p }
{
    (u32_at(file, 0) == i) & ((u32_at(file, p.bins) == j) & (p.end == file.len() as u64))
}

// The file ends with its fifth section, at byte `end`, or with the prefactor of the terms that follow.
#[tactic(auto, using(crate::proofs::Numbers::none_there, crate::proofs::Accepted::left_is), unfolding(crate::specs::Read::ended))]
fn ended(file: &[u8], end: u64) -> bool
    ensures { result ≡ ended file.now end }
{
    let n = file.len() as u64;
    if end == n {
        return true;
    }
    if n < end {
        return false;
    }
    let k = u32_at(file, end) as u64;
    (0 < k) & (n - end == k * 20 + 12)
}

// Question 13 of a table that may have a sixth section.
#[tactic(auto, unfolding(crate::specs::Read::table_laid_out))]
pub(crate) fn table_laid_out(file: &[u8], p: Layout) -> bool
    ensures { result ≡ table_laid_out file.now p }
{
    (u32_at(file, 0) == 3) & ((u32_at(file, p.bins) == 2) & ended(file, p.end))
}

// The bytes of the sixth section of so many terms and of the prefactor behind it.
pub fn tail_size(terms: u32) -> u64
    ensures { result ≡ tail_size terms }
{
    if terms == 0 {
        return 0;
    }
    terms as u64 * 20 + 12
}

// Where the terms start, behind the fifth section, which ends at byte `end`.
#[tactic(auto, unfolding(crate::specs::Read::tail_at))]
fn terms_start(file: &[u8], end: u64) -> u64
    requires { TailInside file.now (end + 4) (count_at file.now end) }
    ensures { result ≡ tail_at file.now end }
{
    if u32_at(file, end) == 0 {
        return file.len() as u64;
    }
    end + 4
}

// The grid that a file holds. It has neither threshold nor beta.
#[tactic(auto, unfolding(crate::specs::Read::grid_of))]
fn grid_of(file: &[u8], p: Layout) -> Grid
    requires { SectionsInside 3 2 file.now p }
    ensures { result ≡ grid_of file.now p }
{
    let rmin = f64_in(file, 4);
    let dr = f64_in(file, 12);
    let n_r = u32_in(file, p.bins + 4) as u64;
    Grid {
        rmin,
        rmax: grid::table_rmax(n_r, dr, rmin),
        dr,
        omega_step: f64_in(file, 20),
        threshold: 0.0,
        beta: 0.0,
        n_r,
        n_omega: u32_in(file, p.bins + 8) as u64,
    }
}

#[tactic(auto, unfolding(crate::specs::Atom::atom_grid_of))]
fn atom_grid_of(file: &[u8], p: Layout) -> AtomGrid
    requires { SectionsInside 2 1 file.now p }
    ensures { result ≡ atom_grid_of file.now p }
{
    let rmin = f64_in(file, 4);
    let dr = f64_in(file, 12);
    let n_r = u32_in(file, p.bins + 4) as u64;
    AtomGrid {
        rmin,
        rmax: grid::table_rmax(n_r, dr, rmin),
        dr,
        threshold: 0.0,
        beta: 0.0,
        n_r,
    }
}

#[tactic(auto, unfolding(crate::specs::Read::table_of))]
pub(crate) fn table_of(file: &[u8], p: Layout) -> Table
    requires { TableSections file.now p }
    ensures { result ≡ table_of file.now p }
{
    Table {
        grid: grid_of(file, p),
        levels: u32_in(file, p.levels) as u64,
        rows: u32_in(file, p.rows) as u64,
        energies: u32_in(file, p.energies) as u64,
        terms: u32_at(file, p.end) as u64,
        grid_start: 4,
        bins_start: p.bins + 4,
        levels_start: p.levels + 4,
        rows_start: p.rows + 4,
        energies_start: p.energies + 4,
        tail_start: terms_start(file, p.end),
    }
}

#[tactic(auto, unfolding(crate::specs::Atom::atom_table_of))]
pub(crate) fn atom_table_of(file: &[u8], p: Layout) -> AtomTable
    requires { SectionsInside 2 1 file.now p }
    ensures { result ≡ atom_table_of file.now p }
{
    AtomTable {
        grid: atom_grid_of(file, p),
        levels: u32_in(file, p.levels) as u64,
        rows: u32_in(file, p.rows) as u64,
        energies: u32_in(file, p.energies) as u64,
        grid_start: 4,
        bins_start: p.bins + 4,
        levels_start: p.levels + 4,
        rows_start: p.rows + 4,
        energies_start: p.energies + 4,
    }
}
