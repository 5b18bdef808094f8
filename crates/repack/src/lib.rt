// A loosely packed table file made a packed one: each Mesh row's energies are copied to its packed place in a second
// buffer.
#![tactic(auto)]

ghost use Rattle.std.specs.Prelude.{◌≡◌, ◌+◌, ◌*◌, ◌-◌, ◌≤◌, length};
ghost use Rattle.table.specs.Read.{layout, table_of};
ghost use Rattle.table.specs.Loose.{loose_refusal};
ghost use Rattle.repack.specs.Repack.{RepackOut, repacked_values, repack_out};

use refusals::Refusal;
use table::{Section, Table};

mod bytes;
mod packing;

use crate::packing::{energies_total, put_packed, rows_moved};

// What repack answers: the length of the packed file, and the number of rows whose offset is another.
#[derive(Clone, Copy)]
pub struct Repacked {
    pub length: u64,
    pub moved: u64,
}

// The length of the packed file, of e energies: section 5 has another length, and what follows it has not.
fn packed_length(file: &[u8], energies: Section, e: u64) -> u64
    requires { (energies.start + energies.count * 4 ≤ length file.now) × (e ≤ 4294967295) }
    ensures { result ≡ energies.start + e * 4 + (length file.now - (energies.start + energies.count * 4)) }
{
    let left = file.len() as u64 - (energies.start + energies.count * 4);
    energies.start + e * 4 + left
}

// Question 12, then the packed file of a file whose other questions were answered yes.
fn repack_table(file: &[u8], t: Table, output: &mut [u8]) -> Result<Repacked, Refusal>
    requires { (t ≡ table_of file.now (layout file.now)) × (loose_refusal file.now (layout file.now) t ≡ 0) }
    ensures { ◌≡◌ {A = RepackOut}
        (record { answer = repacked_values result; output = output.new }) (repack_out file.now output.old) }
{
    let rows = Section {
        start: t.rows_start,
        count: t.rows,
    };
    let energies = Section {
        start: t.energies_start,
        count: t.energies,
    };
    let e = energies_total(file, rows);
    let length = packed_length(file, energies, e);
    if (output.len() as u64) < length {
        return Err(Refusal::ShortOutput);
    }
    let moved = rows_moved(file, rows);
    put_packed(file, rows, energies, e, output);
    Ok(Repacked { length, moved })
}

// Repacks a file: the questions 13, 14, 15, 25, 17, 23, then 12.
pub fn repack(file: &[u8], output: &mut [u8]) -> Result<Repacked, Refusal>
    ensures { ◌≡◌ {A = RepackOut}
        (record { answer = repacked_values result; output = output.new }) (repack_out file.now output.old) }
{
    let t = table::read_loose(file)?;
    repack_table(file, t, output)
}
