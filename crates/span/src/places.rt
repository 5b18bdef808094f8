// Numbers and rows at places that are known to be inside the file: `table` would ask of each whether it is.
ghost use Rattle.std.specs.Prelude.{◌≡◌, ◌+◌, ◌≤◌, length, take, drop};
ghost use Rattle.table.specs.Bytes.{number_at};
ghost use Rattle.table.specs.File.{entry_of};

use table::Entry;

// The number in four bytes that are inside the file.
#[tactic(auto, using(table::proofs::Numbers::four), unfolding(table::specs::Bytes::number_of))]
pub(crate) fn u32_inside(file: &[u8], at: u64) -> u32
    requires { at + 4 ≤ length file.now }
    ensures { result ≡ number_at 4 file.now at }
{
    let i = at as usize;
    table::u32_from_le_bytes(file[i], file[i + 1], file[i + 2], file[i + 3])
}

// The row at a byte, inside the file. `entry_at` of `table` would ask whether it is, and read all of it.
#[tactic(auto, using(table::proofs::Items::entry_at_lem))]
pub(crate) fn entry_inside(file: &[u8], at: u64) -> Entry
    requires { at + 10 ≤ length file.now }
    ensures { result ≡ entry_of (take 10 (drop at file.now)) }
{
    let i = at as usize;
    Entry {
        kind: file[i],
        level: file[i + 1],
        offset: u32_inside(file, at + 2),
        scalar: u32_inside(file, at + 6),
    }
}
