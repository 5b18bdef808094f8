// Little-endian numbers in a file.
ghost use Rattle.std.specs.Prelude.{◌≡◌, [], ◌∷◌, ◌+◌, ◌/◌, ◌%◌, ◌≤◌, length, slice_index};
ghost use Rattle.table.specs.Bytes.{number_of, number_at};
ghost use Rattle.table.specs.Read.{f64_at};

// The number that four bytes are, the lowest first.
#[tactic(auto, unfolding(crate::specs::Bytes::number_of))]
pub fn u32_from_le_bytes(a: u8, b: u8, c: u8, d: u8) -> u32
    ensures { result ≡ number_of (a ∷ b ∷ c ∷ d ∷ []) }
{
    u32::from_le_bytes([a, b, c, d])
}

// Four bytes that are inside the file: no place is questioned.
#[tactic(auto, using(crate::proofs::Numbers::four), unfolding(crate::specs::Bytes::number_of))]
pub(crate) fn u32_in(file: &[u8], at: u64) -> u32
    requires { at + 4 ≤ length file.now }
    ensures { result ≡ number_at 4 file.now at }
{
    let i = at as usize;
    u32_from_le_bytes(file[i], file[i + 1], file[i + 2], file[i + 3])
}

// Eight bytes that are inside the file: also two numbers of four.
#[tactic(auto, using(crate::proofs::Numbers::eight))]
pub(crate) fn u64_in(file: &[u8], at: u64) -> u64
    requires { at + 8 ≤ length file.now }
    ensures { (result ≡ number_at 8 file.now at) × (result % 4294967296 ≡ number_at 4 file.now at)
        × (result / 4294967296 ≡ number_at 4 file.now (at + 4)) }
{
    let low = u32_in(file, at) as u64;
    let high = u32_in(file, at + 4) as u64;
    high * 4294967296 + low
}

// Eight bytes that are inside the file, as a float.
pub(crate) fn f64_in(file: &[u8], at: u64) -> f64
    requires { at + 8 ≤ length file.now }
    ensures { result ≡ f64_at file.now at }
{
    bits::float64(u64_in(file, at))
}

// A byte of any place; those beyond the end count as 0.
pub(crate) fn byte_at(file: &[u8], i: usize) -> u8
    ensures { result ≡ slice_index file.now i }
{
    file.get(i).copied().unwrap_or(0)
}

// Four bytes of any place.
pub fn u32_at(file: &[u8], at: u64) -> u32
    ensures { result ≡ number_at 4 file.now at }
{
    let n = file.len() as u64;
    if n <= at {
        return 0;
    }
    if 4 <= n - at {
        return u32_in(file, at);
    }
    let i = at as usize;
    u32_from_le_bytes(
        byte_at(file, i),
        byte_at(file, i + 1),
        byte_at(file, i + 2),
        byte_at(file, i + 3),
    )
}

// Eight bytes of any place, as a float.
pub fn float_at(file: &[u8], at: u64) -> f64
    ensures { result ≡ f64_at file.now at }
{
    if file.len() as u64 <= at {
        return 0.0;
    }
    let low = u32_at(file, at) as u64;
    let high = u32_at(file, at + 4) as u64;
    bits::float64(high * 4294967296 + low)
}
