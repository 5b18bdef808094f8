// Read: the walk, then its questions in their order.
ghost use Rattle.std.specs.Prelude.{◌≡◌};
ghost use Rattle.table.specs.Read.{read_values, read_out};
ghost use Rattle.table.specs.View.{viewer, read_over};
ghost use Rattle.table.specs.Atom.{atom_read_values, atom_read_out};

use crate::questions::{atom_table_question, table_question};
use crate::walk::{atom_table_of, laid_out, sections, table_laid_out, table_of};
use crate::{AtomTable, Bound, Table};
use refusals::Refusal;

// Reads a file under a bound: the questions 13, 14, 24, 15 to 17, then 23, each put to the whole file before the next.
pub fn read_over(bound: Bound, file: &[u8]) -> Result<Table, Refusal>
    ensures { read_values result ≡ read_over bound file.now }
{
    let p = sections(file);
    if !table_laid_out(file, p) {
        return Err(Refusal::Sections);
    }
    let table = table_of(file, p);
    table_question(bound, file, table)?;
    Ok(table)
}

// Reads a file for the host: no bound but those of question 14.
pub fn read(file: &[u8]) -> Result<Table, Refusal>
    ensures { read_values result ≡ read_out file.now }
{
    let host = Bound {
        levels: 16,
        rows: 4294836225,
    };
    read_over(host, file)
}

// Reads a file for the viewer, which opens small tables alone.
pub fn view(file: &[u8]) -> Result<Table, Refusal>
    ensures { read_values result ≡ read_over viewer file.now }
{
    let viewer = Bound {
        levels: 4,
        rows: 4096,
    };
    read_over(viewer, file)
}

// The same of the file of a table against an atom.
pub fn atom_read(file: &[u8]) -> Result<AtomTable, Refusal>
    ensures { atom_read_values result ≡ atom_read_out file.now }
{
    let p = sections(file);
    if !laid_out(file, p, 2, 1) {
        return Err(Refusal::Sections);
    }
    let atom_table = atom_table_of(file, p);
    atom_table_question(file, atom_table)?;
    Ok(atom_table)
}
