// Little-endian numbers put into a file.
ghost use Rattle.std.specs.Prelude.{◌≡◌, ◌+◌, ◌≤◌, length};
ghost use Rattle.std.specs.Float.{binary64};
ghost use Rattle.std.specs.Float.Ieee.{to_bits};
ghost use Rattle.lists.specs.Lists.{put};
ghost use Rattle.table.specs.Bytes.{bytes_of};

// Four bytes, where there is room for them.
pub(crate) fn put_u32(out: &mut [u8], at: u64, x: u32)
    requires { at + 4 ≤ length out.old }
    ensures { out.new ≡ put out.old at (bytes_of 4 x) }
{
    let i = at as usize;
    out[i..i + 4].copy_from_slice(&x.to_le_bytes());
}

pub(crate) fn put_f64(out: &mut [u8], at: u64, x: f64)
    requires { at + 8 ≤ length out.old }
    ensures { out.new ≡ put out.old at (bytes_of 8 (to_bits binary64 x)) }
{
    let i = at as usize;
    out[i..i + 8].copy_from_slice(&bits::bits64(x).to_le_bytes());
}
