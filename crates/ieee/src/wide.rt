// Whole numbers of two words: hi * 2^64 + lo.
ghost use Rattle.std.specs.Prelude.{◌≡◌, ◌+◌, ◌-◌, ◌*◌, ◌^◌, ◌<◌, ◌≤◌, cond, if◌then◌else◌, nat_lt};
ghost use Rattle.std.specs.Float.{binary64};
ghost use Rattle.std.specs.Float.Ieee.{round};
ghost use Rattle.ieee.specs.Internal.{wide, stuck, jammed};

use crate::rounding::{pattern_top, round64, signed64};

#[derive(Clone, Copy)]
pub(crate) struct Wide {
    pub(crate) hi: u64,
    pub(crate) lo: u64,
}

// q, made odd where something is left: a sticky last digit.
fn stick(q: u64, rest: u64) -> u64
    ensures { result ≡ stuck q rest }
{
    let some = (rest != 0) as u64;
    q + (1 - q % 2) * some
}

// w / 2^k, with a sticky last digit.
pub(crate) fn jam(w: Wide, k: u64) -> Wide
    ensures { wide result.hi result.lo ≡ jammed (wide w.hi w.lo) (2 ^ k) }
{
    let Wide { hi, lo } = w;
    if k == 0 {
        return w;
    }
    if k >= 128 {
        let s = stick(stick(0, hi), lo);
        return Wide { hi: 0, lo: s };
    }
    if k >= 64 {
        let q = hi >> (k - 64);
        let s = stick(stick(q, hi % (1 << (k - 64))), lo);
        return Wide { hi: 0, lo: s };
    }
    let s = stick((hi << (64 - k)) + (lo >> k), lo % (1 << k));
    Wide { hi: hi >> k, lo: s }
}

// w * 2^t / 2^5170, rounded.
pub(crate) fn round_wide(neg: bool, w: Wide, t: u64) -> f64
    requires { t ≤ 7900 }
    ensures { result ≡ round binary64 neg (wide w.hi w.lo * 2 ^ t) (2 ^ 5170) }
{
    let Wide { hi, lo } = w;
    if hi == 0 {
        return round64(neg, lo, t);
    }
    // the leading digit to the top; what is left of the lower word only says that the number goes on
    let z = hi.leading_zeros() as u64;
    let n = (hi << z) + ((lo / 2) >> (63 - z));
    signed64(neg, pattern_top(n, lo << z != 0, t + 128 - z, 53))
}

// The product by halves of a word.
pub(crate) fn product(a: u64, b: u64) -> Wide
    requires { (a < 2 ^ 63) × (b < 2 ^ 63) }
    ensures { (wide result.hi result.lo ≡ a * b) × (result.hi < 2 ^ 62) }
{
    let a1 = a >> 32;
    let a0 = a % 0x1_0000_0000;
    let b1 = b >> 32;
    let b0 = b % 0x1_0000_0000;
    let low = a0 * b0;
    let mid = a0 * b1 + a1 * b0 + (low >> 32);
    Wide {
        hi: a1 * b1 + (mid >> 32),
        lo: (mid << 32) + low % 0x1_0000_0000,
    }
}

// k * 2^(t + 11): k starts at the top of the lower word.
pub(crate) fn shifted(k: u64, t: u64) -> Wide
    requires { (k < 2 ^ 53) × (t < 63) }
    ensures { (wide result.hi result.lo ≡ k * 2 ^ (t + 11)) × (result.hi < 2 ^ 62) }
{
    let v = k * 2048;
    Wide {
        hi: (v / 2) >> (63 - t),
        lo: v << t,
    }
}

// The lower words count as one more where they are in order.
pub(crate) fn less(a: Wide, b: Wide) -> bool
    requires { b.hi < 2 ^ 63 }
    ensures { result ≡ nat_lt (wide a.hi a.lo) (wide b.hi b.lo) }
{
    a.hi < b.hi + (a.lo < b.lo) as u64
}

// With no jump: which of two is the larger cannot be foreseen.
fn pick(first: bool, a: Wide, b: Wide) -> Wide
    ensures { (result.hi ≡ (if first then a.hi else b.hi)) × (result.lo ≡ (if first then a.lo else b.lo)) }
{
    if first { a } else { b }
}

// x, or its complement.
fn flip(plain: bool, x: u64) -> u64
    ensures { result ≡ (if plain then x else 2 ^ 64 - 1 - x) }
{
    if plain { x } else { 0xffff_ffff_ffff_ffff - x }
}

// a + b, or a - b as a plus the complement of b and 1; with no jump, since signs cannot be foreseen either.
fn combined(like: bool, a: Wide, b: Wide) -> Wide
    requires { (a.hi < 2 ^ 63) × (b.hi < 2 ^ 63) × (wide b.hi b.lo ≤ wide a.hi a.lo) }
    ensures { wide result.hi result.lo ≡ (if like then wide a.hi a.lo + wide b.hi b.lo else wide a.hi a.lo - wide b.hi b.lo) }
{
    let x = flip(like, b.lo);
    let y = flip(like, b.hi);
    let one = !like as u64;
    let sum = a.lo.wrapping_add(x);
    let lo = sum.wrapping_add(one);
    let carry = (sum < x) as u64 + (lo < one) as u64;
    Wide {
        hi: a.hi.wrapping_add(y).wrapping_add(carry),
        lo,
    }
}

// The size of a + b where the signs are alike, and of a - b where they are not; `under` says whether a is below b.
pub(crate) fn joined(like: bool, under: bool, a: Wide, b: Wide) -> Wide
    requires { (a.hi < 2 ^ 63) × (b.hi < 2 ^ 63) × (under ≡ nat_lt (wide a.hi a.lo) (wide b.hi b.lo)) }
    ensures { wide result.hi result.lo ≡ cond like (wide a.hi a.lo + wide b.hi b.lo)
        (if under then wide b.hi b.lo - wide a.hi a.lo else wide a.hi a.lo - wide b.hi b.lo) }
{
    combined(like, pick(under, b, a), pick(under, a, b))
}
