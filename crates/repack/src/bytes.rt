// Rows of the file, a number put into the packed one, and bytes copied to it.
ghost use Rattle.std.specs.Prelude.{◌≡◌, ◌+◌, ◌≤◌, length, take, drop};
ghost use Rattle.lists.specs.Lists.{put};
ghost use Rattle.table.specs.Bytes.{bytes_of, number_at};
ghost use Rattle.table.specs.File.{entry_of};

use table::Entry;

// The number in four bytes that are inside the file.
#[tactic(auto, using(table::proofs::Numbers::four), unfolding(table::specs::Bytes::number_of))]
fn u32_inside(file: &[u8], at: u64) -> u32
    requires { at + 4 ≤ length file.now }
    ensures { result ≡ number_at 4 file.now at }
{
    let i = at as usize;
    table::u32_from_le_bytes(file[i], file[i + 1], file[i + 2], file[i + 3])
}

// The row at a byte, inside the file. `entry_at` of `table` would ask whether it is, and read all of it.
#[tactic(auto, using(table::proofs::Items::entry_at_lem))]
pub(crate) fn entry_inside(file: &[u8], at: u64) -> Entry
    requires { at + 10 ≤ length file.now }
    ensures { result ≡ entry_of (take 10 (drop at file.now)) }
{
    let i = at as usize;
    Entry {
        kind: file[i],
        level: file[i + 1],
        offset: u32_inside(file, at + 2),
        scalar: u32_inside(file, at + 6),
    }
}

// Four bytes, where there is room for them.
pub(crate) fn put_u32(out: &mut [u8], at: u64, x: u32)
    requires { at + 4 ≤ length out.old }
    ensures { out.new ≡ put out.old at (bytes_of 4 x) }
{
    let i = at as usize;
    out[i..i + 4].copy_from_slice(&x.to_le_bytes());
}

// Bytes put from a place on, by a loop: the library's copy of a slice calls memmove, which nothing else here needs of a
// host.
fn put_bytes(bytes: &[u8], out: &mut [u8], at: usize)
    requires { at + length bytes.now ≤ length out.old }
    ensures { out.new ≡ put out.old at bytes.now }
{
    for (j, byte) in bytes.iter().enumerate() {
        out[at + j] = *byte;
    }
}

// n bytes of the file, from a byte on.
pub(crate) fn copy(file: &[u8], from: u64, n: u64, out: &mut [u8], at: u64)
    requires { (from + n ≤ length file.now) × (at + n ≤ length out.old) }
    ensures { out.new ≡ put out.old at (take n (drop from file.now)) }
{
    let i = from as usize;
    put_bytes(&file[i..i + n as usize], out, at as usize);
}
