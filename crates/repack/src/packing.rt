// The packed places of the rows of a file, and the parts of the packed file.
ghost use Rattle.std.specs.Prelude.{◌≡◌, true, cond, ◌||◌, ◌++◌, ◌+◌, ◌*◌, ◌-◌, ◌≤◌, ◌<◌, length, take, drop, leb, eqb};
ghost use Rattle.lists.specs.Lists.{put, every};
ghost use Rattle.table.specs.Bytes.{bytes_of};
ghost use Rattle.table.specs.Internal.{ends_below};
ghost use Rattle.repack.specs.Repack.{held, total, placed, other_offsets, new_row, new_rows, parts};
ghost use Rattle.repack.specs.Internal.{rows_at, Loose};

use crate::bytes::{copy, entry_inside, put_u32};
use table::{Entry, Section};

// How many energies a row has.
fn held(row: Entry) -> u64
    ensures { result ≡ held row }
{
    if row.kind <= 1 {
        return 0;
    }
    mesh::per_level(row.level)
}

// The energies of all rows together.
pub(crate) fn energies_total(file: &[u8], rows: Section) -> u64
    requires { (rows.start + rows.count * 10 ≤ length file.now) × (total (rows_at file.now rows.start rows.count) ≤ 4294967295) }
    ensures { result ≡ total (rows_at file.now rows.start rows.count) }
{
    let mut o = 0;
    for i in 0..rows.count {
        o += held(entry_inside(file, rows.start + i * 10));
    }
    o
}

// 1 where a row's offset is not its packed place o.
fn row_moved(row: Entry, o: u64) -> u64
    ensures { result ≡ cond (leb row.kind 1 || eqb row.offset o) 0 1 }
{
    if (row.kind <= 1) | (row.offset as u64 == o) {
        return 0;
    }
    1
}

// How many rows have another offset once they are packed.
pub(crate) fn rows_moved(file: &[u8], rows: Section) -> u64
    requires { (rows.start + rows.count * 10 ≤ length file.now) × (total (rows_at file.now rows.start rows.count) ≤ 4294967295) }
    ensures { result ≡ other_offsets (rows_at file.now rows.start rows.count) (placed 0 (rows_at file.now rows.start rows.count)) }
{
    let mut o = 0;
    let mut moved = 0;
    for i in 0..rows.count {
        let row = entry_inside(file, rows.start + i * 10);
        moved += row_moved(row, o);
        o += held(row);
    }
    moved
}

// The row at a byte, put where it stands, with the offset o if it is a Mesh row.
fn put_row(file: &[u8], at: u64, o: u32, out: &mut [u8])
    requires { (at + 10 ≤ length file.now) × (at + 10 ≤ length out.old) }
    ensures { out.new ≡ put out.old at (new_row file.now at o) }
{
    if file[at as usize] <= 1 {
        copy(file, at, 10, out, at);
        return;
    }
    copy(file, at, 2, out, at);
    put_u32(out, at + 2, o);
    copy(file, at + 6, 4, out, at + 6);
}

// Rows with their packed places, where they stand in the file.
fn put_rows(file: &[u8], rows: Section, out: &mut [u8])
    requires { (rows.start + rows.count * 10 ≤ length file.now) × (rows.start + rows.count * 10 ≤ length out.old)
        × (total (rows_at file.now rows.start rows.count) ≤ 4294967295) }
    ensures { out.new ≡ put out.old rows.start (new_rows file.now rows.start rows.count 0) }
{
    let mut o = 0;
    for i in 0..rows.count {
        let at = rows.start + i * 10;
        put_row(file, at, o as u32, out);
        o += held(entry_inside(file, at));
    }
}

// e energies from place `offset` on; none of a row that has no place.
fn put_part(file: &[u8], from: u64, offset: u32, e: u64, out: &mut [u8], to: u64)
    requires { (0 < e → from + (e + offset) * 4 ≤ length file.now) × (to + e * 4 ≤ length out.old) }
    ensures { out.new ≡ put out.old to (take (e * 4) (drop (from + offset * 4) file.now)) }
{
    if e == 0 {
        return;
    }
    copy(file, from + offset as u64 * 4, e * 4, out, to);
}

// The energies of all rows, one row's after another's, where those of the file start.
fn put_parts(file: &[u8], rows: Section, energies: Section, out: &mut [u8])
    requires { (rows.start + rows.count * 10 ≤ length file.now) × (energies.start + energies.count * 4 ≤ length file.now)
        × (every (ends_below energies.count) (rows_at file.now rows.start rows.count) ≡ true)
        × (energies.start + total (rows_at file.now rows.start rows.count) * 4 ≤ length out.old) }
    ensures { out.new ≡ put out.old energies.start (parts file.now energies.start (rows_at file.now rows.start rows.count)) }
{
    let mut to = energies.start;
    for i in 0..rows.count {
        let row = entry_inside(file, rows.start + i * 10);
        let e = held(row);
        put_part(file, energies.start, row.offset, e, out, to);
        to += e * 4;
    }
}

// What stands before section 5: all but the Mesh rows' offsets is the file's.
fn put_before(file: &[u8], rows: Section, out: &mut [u8])
    requires { (rows.start + rows.count * 10 ≤ length file.now) × (rows.start + rows.count * 10 ≤ length out.old)
        × (total (rows_at file.now rows.start rows.count) ≤ 4294967295) }
    ensures { out.new ≡ put out.old 0 (take rows.start file.now ++ new_rows file.now rows.start rows.count 0) }
{
    copy(file, 0, rows.start, out, 0);
    put_rows(file, rows, out);
}

// Section 5, of e energies, and what follows it in the file.
fn put_after(file: &[u8], rows: Section, energies: Section, e: u64, out: &mut [u8])
    requires { Loose file.now rows.start rows.count energies.start energies.count × (e ≡ total (rows_at file.now rows.start rows.count))
        × (energies.start + e * 4 + (length file.now - (energies.start + energies.count * 4)) ≤ length out.old) }
    ensures { out.new ≡ put out.old (rows.start + rows.count * 10)
        (bytes_of 4 e ++ (parts file.now energies.start (rows_at file.now rows.start rows.count) ++ drop (energies.start + energies.count * 4) file.now)) }
{
    let end = energies.start + energies.count * 4;
    put_u32(out, rows.start + rows.count * 10, e as u32);
    put_parts(file, rows, energies, out);
    copy(
        file,
        end,
        file.len() as u64 - end,
        out,
        energies.start + e * 4,
    );
}

// The packed file, of e energies.
pub(crate) fn put_packed(file: &[u8], rows: Section, energies: Section, e: u64, out: &mut [u8])
    requires { Loose file.now rows.start rows.count energies.start energies.count × (e ≡ total (rows_at file.now rows.start rows.count))
        × (energies.start + e * 4 + (length file.now - (energies.start + energies.count * 4)) ≤ length out.old) }
    ensures { out.new ≡ put out.old 0 (take rows.start file.now ++ (new_rows file.now rows.start rows.count 0
        ++ (bytes_of 4 e ++ (parts file.now energies.start (rows_at file.now rows.start rows.count) ++ drop (energies.start + energies.count * 4) file.now)))) }
{
    put_before(file, rows, out);
    put_after(file, rows, energies, e, out);
}
