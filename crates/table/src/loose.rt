// The reader of loosely packed files: that of reader.rt with question 25 in the place of 16.
ghost use Rattle.std.specs.Prelude.{◌≡◌, ◌+◌, ◌*◌, ◌≤◌, length};
ghost use Rattle.lists.specs.Lists.{every};
ghost use Rattle.refusals.specs.Numbers.{asked};
ghost use Rattle.table.specs.Bytes.{items};
ghost use Rattle.table.specs.File.{entry_of};
ghost use Rattle.table.specs.Read.{read_values};
ghost use Rattle.table.specs.Loose.{loose_out};
ghost use Rattle.table.specs.Internal.{TableInside, ends_below, loose_question};

use crate::questions::{
    energies_of, energies_valid, entry_in, rows_valid, table_valid, tail_valid,
};
use crate::walk::{sections, table_laid_out, table_of};
use crate::{Entry, Section, Table};
use refusals::{Asked, Refusal};

// Question 25, of a row.
#[tactic(auto, using(crate::proofs::Items::each_le))]
fn slab_inside(row: Entry, energies: u64) -> bool
    ensures { result ≡ ends_below energies row }
{
    if row.kind <= 1 {
        return true;
    }
    (row.offset != 0xffff_ffff) & (energies_of(true, row.level) + row.offset as u64 <= energies)
}

// Question 25, of every row.
#[tactic(auto, using(lists::proofs::Counting::all_turn, lists::proofs::Counting::all_fails, crate::proofs::Items::every_up_to), unfolding(lists::specs::Lists::all_up_to))]
fn slabs_inside(file: &[u8], rows: Section, energies: u64) -> bool
    requires { rows.start + rows.count * 10 ≤ length file.now }
    ensures { result ≡ every (ends_below energies) (items entry_of 10 file.now rows.start rows.count) }
{
    for i in 0..rows.count {
        if !slab_inside(entry_in(file, rows.start + i * 10), energies) {
            return false;
        }
    }
    true
}

// Questions 14, 15, 25, 17, then 23.
#[tactic(auto, using(refusals::proofs::Numbers::numbered, crate::proofs::OfLoose::ends_are), unfolding(lists::specs::Questions::ask))]
fn loose_question(file: &[u8], t: Table) -> Asked
    requires { TableInside file.now t }
    ensures { asked result ≡ loose_question file.now t }
{
    let rows = Section {
        start: t.rows_start,
        count: t.rows,
    };
    let energies = Section {
        start: t.energies_start,
        count: t.energies,
    };
    if !table_valid(file, t) {
        return Err(Refusal::FileGrid);
    }
    if !rows_valid(file, rows, t.levels) {
        return Err(Refusal::Row);
    }
    if !slabs_inside(file, rows, t.energies) {
        return Err(Refusal::SlabPlace);
    }
    if !energies_valid(file, energies) {
        return Err(Refusal::FileNan);
    }
    if !tail_valid(file, t) {
        return Err(Refusal::Term);
    }
    Ok(())
}

// Reads a loosely packed file: the questions 13, 14, 15, 25, 17, then 23, each put to the whole file before the next.
pub fn read_loose(file: &[u8]) -> Result<Table, Refusal>
    ensures { read_values result ≡ loose_out file.now }
{
    let p = sections(file);
    if !table_laid_out(file, p) {
        return Err(Refusal::Sections);
    }
    let t = table_of(file, p);
    loose_question(file, t)?;
    Ok(t)
}
