// The questions 14 to 17, 23 and 24 that read puts to a file, each one loop over a section.
ghost use Rattle.std.specs.Prelude.{◌≡◌, not, ◌&&◌, ◌+◌, ◌*◌, ◌≤◌, length, take, drop, eqb};
ghost use Rattle.std.specs.Float.{binary32};
ghost use Rattle.std.specs.Float.Ieee.{nan_bits};
ghost use Rattle.lists.specs.Lists.{all_up_to, every};
ghost use Rattle.mesh.specs.Levels.{vertex_count};
ghost use Rattle.refusals.specs.Numbers.{asked};
ghost use Rattle.table.specs.Bytes.{number_of, number_at, items};
ghost use Rattle.table.specs.Tail.{term_of, term_valid, tail_valid};
ghost use Rattle.table.specs.File.{entry_of};
ghost use Rattle.table.specs.Read.{table_valid, tail_in, scalar_valid, entry_valid, tiled};
ghost use Rattle.table.specs.View.{within};
ghost use Rattle.table.specs.Atom.{atom_table_valid};
ghost use Rattle.table.specs.Internal.{TableInside, TailInside, AtomTableInside, each_of, rows_question, table_question, atom_table_question, placed_at, next_place};

use crate::bytes::{byte_at, f64_in, u32_at, u32_in, u64_in};
use crate::{AtomTable, Bound, Entry, Section, Table};
use refusals::{Asked, Refusal};

// Each vertex count is its level's.
#[tactic(auto, using(lists::proofs::Counting::all_turn, lists::proofs::Counting::all_fails), unfolding(lists::specs::Lists::all_up_to))]
fn levels_valid(file: &[u8], levels: Section) -> bool
    requires { (levels.start + levels.count * 4 ≤ length file.now) × (levels.count ≤ 16) }
    ensures { result ≡ all_up_to levels.count
        (λ m. eqb (number_at 4 file.now (levels.start + 4 * m)) (vertex_count m)) }
{
    for m in 0..levels.count {
        if u32_in(file, levels.start + 4 * m) as u64 != mesh::vertex_count(m as u8) {
            return false;
        }
    }
    true
}

// Question 14.
#[tactic(auto, using(crate::proofs::Accepted::held_ranged, crate::proofs::Accepted::slabs_counted), unfolding(crate::specs::Read::table_valid))]
pub(crate) fn table_valid(file: &[u8], t: Table) -> bool
    requires { t.levels_start + t.levels * 4 ≤ length file.now }
    ensures { result ≡ table_valid file.now t }
{
    let levels = Section {
        start: t.levels_start,
        count: t.levels,
    };
    grid::grid_valid(t.grid, t.levels)
        && t.rows == t.grid.n_r * t.grid.n_omega
        && levels_valid(file, levels)
}

// Question 14 of a table against an atom.
#[tactic(auto, using(crate::proofs::Accepted::atom_held_ranged), unfolding(crate::specs::Atom::atom_table_valid))]
fn atom_table_valid(file: &[u8], t: AtomTable) -> bool
    requires { t.levels_start + t.levels * 4 ≤ length file.now }
    ensures { result ≡ atom_table_valid file.now t }
{
    let levels = Section {
        start: t.levels_start,
        count: t.levels,
    };
    grid::atom_grid_valid(t.grid, t.levels) && t.rows == t.grid.n_r && levels_valid(file, levels)
}

// The bits of a NaN: above those of infinity, apart from the sign.
fn nan_bits(x: u32) -> bool
    ensures { result ≡ nan_bits binary32 x }
{
    x % 0x8000_0000 > 0x7f80_0000
}

#[tactic(auto, unfolding(crate::specs::Read::scalar_valid))]
fn scalar_valid(x: u32) -> bool
    ensures { result ≡ scalar_valid x }
{
    !nan_bits(x) || x == 0x7fc0_0000
}

// The row at a byte.
#[tactic(auto, using(crate::proofs::Items::entry_at_lem))]
pub(crate) fn entry_in(file: &[u8], at: u64) -> Entry
    requires { at + 10 ≤ length file.now }
    ensures { result ≡ entry_of (take 10 (drop at file.now)) }
{
    let i = at as usize;
    Entry {
        kind: file[i],
        level: file[i + 1],
        offset: u32_in(file, at + 2),
        scalar: u32_in(file, at + 6),
    }
}

// The row at any byte; bytes beyond the file's end count as 0.
#[tactic(auto, using(crate::proofs::Items::entry_at_lem, crate::proofs::Numbers::beyond, crate::proofs::Numbers::none_there))]
pub fn entry_at(file: &[u8], at: u64) -> Entry
    ensures { result ≡ entry_of (take 10 (drop at file.now)) }
{
    let n = file.len() as u64;
    if n <= at {
        return Entry {
            kind: 0,
            level: 0,
            offset: 0,
            scalar: 0,
        };
    }
    if 10 <= n - at {
        return entry_in(file, at);
    }
    let i = at as usize;
    Entry {
        kind: byte_at(file, i),
        level: byte_at(file, i + 1),
        offset: u32_at(file, at + 2),
        scalar: u32_at(file, at + 6),
    }
}

// Question 15, of a row of a table of so many levels.
#[tactic(auto, unfolding(crate::specs::Read::entry_valid))]
fn entry_valid(levels: u64, row: Entry) -> bool
    ensures { result ≡ entry_valid levels row }
{
    if row.kind == 0 {
        return (row.level == 0) & ((row.offset == 0xffff_ffff) & scalar_valid(row.scalar));
    }
    if row.kind == 1 {
        return (row.level == 0) & ((row.offset == 0xffff_ffff) & (row.scalar == 0));
    }
    (row.kind <= 3) & (((row.level as u64) < levels) & (row.scalar == 0))
}

// Question 15.
#[tactic(auto, using(lists::proofs::Counting::all_turn, lists::proofs::Counting::all_fails, crate::proofs::Items::every_up_to), unfolding(lists::specs::Lists::all_up_to))]
pub(crate) fn rows_valid(file: &[u8], rows: Section, levels: u64) -> bool
    requires { rows.start + rows.count * 10 ≤ length file.now }
    ensures { result ≡ every (entry_valid levels) (items entry_of 10 file.now rows.start rows.count) }
{
    for i in 0..rows.count {
        if !entry_valid(levels, entry_in(file, rows.start + i * 10)) {
            return false;
        }
    }
    true
}

// A row has no energies, or they start at place o.
fn placed(row: Entry, o: u64) -> bool
    ensures { result ≡ placed_at row.kind row.offset o }
{
    (row.kind <= 1) | (row.offset as u64 == o)
}

// The energies of a Mesh row of a level: n·n where two directions are paired, n against an atom.
#[tactic(auto, using(mesh::proofs::Laws::per_le), unfolding(mesh::specs::Levels::per))]
pub fn energies_of(pairs: bool, level: u8) -> u64
    ensures { result ≡ each_of pairs level }
{
    let n = mesh::vertex_count(level);
    if pairs {
        return n * n;
    }
    n
}

// Where the energies of the next row start. From the offset, which is the place, since an offset is known to be small.
#[tactic(auto, using(crate::proofs::Items::each_le))]
fn next_place(pairs: bool, row: Entry, o: u64) -> u64
    requires { o ≤ 433794318339 }
    ensures { (result ≡ next_place (each_of pairs) row.kind row.level row.offset o) × (result ≤ 433794318339) }
{
    if row.kind <= 1 {
        return o;
    }
    row.offset as u64 + energies_of(pairs, row.level)
}

// Question 16.
fn rows_tiled(file: &[u8], pairs: bool, rows: Section, energies: u64) -> bool
    requires { rows.start + rows.count * 10 ≤ length file.now }
    ensures { result ≡ tiled (each_of pairs) 0 energies (items entry_of 10 file.now rows.start rows.count) }
{
    let mut o: u64 = 0;
    for i in 0..rows.count {
        let row = entry_in(file, rows.start + i * 10);
        if !placed(row, o) {
            return false;
        }
        o = next_place(pairs, row, o);
    }
    o == energies
}

// The two energies at a byte are numbers. They are read as one, since a test of a number made of four bytes is not
// compiled to many at a time.
fn pair_valid(file: &[u8], at: u64) -> bool
    requires { at + 8 ≤ length file.now }
    ensures { result ≡ not (nan_bits binary32 (number_at 4 file.now at)) && not
        (nan_bits binary32 (number_at 4 file.now (at + 4))) }
{
    let y = u64_in(file, at);
    let low = (y % 4294967296) as u32;
    let high = (y / 4294967296) as u32;
    !nan_bits(low) & !nan_bits(high)
}

// Question 17. With no way out of the loop, so that it is compiled to many energies at a time.
pub(crate) fn energies_valid(file: &[u8], energies: Section) -> bool
    requires { energies.start + energies.count * 4 ≤ length file.now }
    ensures { result ≡ every (λ x. not (nan_bits binary32 x))
        (items number_of 4 file.now energies.start energies.count) }
{
    let pairs = energies.count / 2;
    let mut held = true;
    for i in 0..pairs {
        held &= pair_valid(file, energies.start + i * 8);
    }
    if energies.count % 2 == 1 {
        return held & !nan_bits(u32_in(file, energies.start + pairs * 8));
    }
    held
}

// Questions 15 to 17 of a table's rows and energies.
#[tactic(auto, using(refusals::proofs::Numbers::numbered), unfolding(lists::specs::Questions::ask))]
fn rows_question(file: &[u8], pairs: bool, levels: u64, rows: Section, energies: Section) -> Asked
    requires { (rows.start + rows.count * 10 ≤ length file.now)
        × (energies.start + energies.count * 4 ≤ length file.now) }
    ensures { asked result ≡ rows_question
        (each_of pairs) file.now levels rows.start rows.count energies.start energies.count }
{
    if !rows_valid(file, rows, levels) {
        return Err(Refusal::Row);
    }
    if !rows_tiled(file, pairs, rows, energies.count) {
        return Err(Refusal::Tiling);
    }
    if !energies_valid(file, energies) {
        return Err(Refusal::FileNan);
    }
    Ok(())
}

// Question 23, of the term at a byte.
#[tactic(auto, using(crate::proofs::Items::term_at_lem), unfolding(crate::specs::Tail::term_valid))]
fn term_valid(file: &[u8], at: u64) -> bool
    requires { at + 20 ≤ length file.now }
    ensures { result ≡ term_valid (term_of (take 20 (drop at file.now))) }
{
    let coefficient = f64_in(file, at);
    let kappa = f64_in(file, at + 8);
    let power = u32_in(file, at + 16);
    ieee::is_finite(coefficient) & (ieee::is_finite(kappa) & (power <= 2147483647))
}

// Question 23, of every term.
#[tactic(auto, using(lists::proofs::Counting::all_turn, lists::proofs::Counting::all_fails, crate::proofs::Items::every_up_to), unfolding(lists::specs::Lists::all_up_to))]
fn terms_valid(file: &[u8], terms: Section) -> bool
    requires { terms.start + terms.count * 20 ≤ length file.now }
    ensures { result ≡ every term_valid (items term_of 20 file.now terms.start terms.count) }
{
    for i in 0..terms.count {
        if !term_valid(file, terms.start + i * 20) {
            return false;
        }
    }
    true
}

// Question 23.
pub(crate) fn tail_valid(file: &[u8], t: Table) -> bool
    requires { TailInside file.now t.tail_start t.terms }
    ensures { result ≡ tail_valid (tail_in file.now t) }
{
    if t.terms == 0 {
        return true;
    }
    let terms = Section {
        start: t.tail_start,
        count: t.terms,
    };
    if !terms_valid(file, terms) {
        return false;
    }
    ieee::is_finite(f64_in(file, t.tail_start + t.terms * 20))
}

// Question 24.
#[tactic(auto, unfolding(crate::specs::View::within))]
fn within(bound: Bound, t: Table) -> bool
    ensures { result ≡ within bound t }
{
    (t.levels <= bound.levels) & (t.rows <= bound.rows)
}

// Question 14, 24 under a bound, 15 to 17, then 23.
#[tactic(auto, using(refusals::proofs::Numbers::numbered), unfolding(lists::specs::Questions::ask, lists::specs::Questions::first))]
pub(crate) fn table_question(bound: Bound, file: &[u8], t: Table) -> Asked
    requires { TableInside file.now t }
    ensures { asked result ≡ table_question bound file.now t }
{
    let rows = Section {
        start: t.rows_start,
        count: t.rows,
    };
    let energies = Section {
        start: t.energies_start,
        count: t.energies,
    };
    if !table_valid(file, t) {
        return Err(Refusal::FileGrid);
    }
    if !within(bound, t) {
        return Err(Refusal::ViewerBound);
    }
    rows_question(file, true, t.levels, rows, energies)?;
    if !tail_valid(file, t) {
        return Err(Refusal::Term);
    }
    Ok(())
}

#[tactic(auto, using(refusals::proofs::Numbers::numbered), unfolding(lists::specs::Questions::ask))]
pub(crate) fn atom_table_question(file: &[u8], t: AtomTable) -> Asked
    requires { AtomTableInside file.now t }
    ensures { asked result ≡ atom_table_question file.now t }
{
    let rows = Section {
        start: t.rows_start,
        count: t.rows,
    };
    let energies = Section {
        start: t.energies_start,
        count: t.energies,
    };
    if !atom_table_valid(file, t) {
        return Err(Refusal::FileGrid);
    }
    rows_question(file, false, t.levels, rows, energies)
}
