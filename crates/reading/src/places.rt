// Places of rows and energies in a file. Counts and starts are any numbers that a host hands in, so nothing is added
// up before it is known to fit.
ghost use Rattle.std.specs.Prelude.{◌≡◌, ◌+◌, ◌*◌, ◌≤◌, length, min, take, drop};
ghost use Rattle.table.specs.Bytes.{number_at};
ghost use Rattle.table.specs.File.{entry_of};
ghost use Rattle.reading.specs.Internal.{items_inside};

use table::{Entry, Section};

// How many of a section's items, w bytes each, are inside a file of `length` bytes.
pub(crate) fn items_inside(section: Section, w: u64, length: u64) -> u64
    requires { 1 ≤ w }
    ensures { result ≡ items_inside section.start w section.count length }
{
    if length <= section.start {
        return 0;
    }
    let n = (length - section.start) / w;
    if n < section.count { n } else { section.count }
}

// The number in four bytes that are inside the file.
#[tactic(auto, using(table::proofs::Numbers::four), unfolding(table::specs::Bytes::number_of))]
pub(crate) fn u32_inside(file: &[u8], at: u64) -> u32
    requires { at + 4 ≤ length file.now }
    ensures { result ≡ number_at 4 file.now at }
{
    let i = at as usize;
    table::u32_from_le_bytes(file[i], file[i + 1], file[i + 2], file[i + 3])
}

// The row at a byte, inside the file. `entry_at` of `table` would ask whether it is, which a reading did already.
#[tactic(auto, using(table::proofs::Items::entry_at_lem))]
pub(crate) fn entry_inside(file: &[u8], at: u64) -> Entry
    requires { at + 10 ≤ length file.now }
    ensures { result ≡ entry_of (take 10 (drop at file.now)) }
{
    let i = at as usize;
    Entry {
        kind: file[i],
        level: file[i + 1],
        offset: u32_inside(file, at + 2),
        scalar: u32_inside(file, at + 6),
    }
}

// ri * n + oi, or the limit where that is no larger.
pub(crate) fn slab_below(ri: u64, n: u64, oi: u64, limit: u64) -> u64
    requires { 1 ≤ n }
    ensures { result ≡ min (ri * n + oi) limit }
{
    if limit <= oi {
        return limit;
    }
    let left = limit - oi;
    if (ri < 4294967296) & (n < 4294967296) {
        let p = ri * n;
        return if p < left { p + oi } else { limit };
    }
    if (left - 1) / n < ri {
        return limit;
    }
    ri * n + oi
}
