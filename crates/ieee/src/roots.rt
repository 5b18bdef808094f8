// The square root of an f64, to the nearest one. It is never half way between two, and neither too large nor too small for one.
ghost use Rattle.std.specs.Prelude.{◌≡◌, ◌+◌, ◌-◌, ◌*◌, ◌^◌, ◌<◌, ◌≤◌, false, is_nan};
ghost use Rattle.ieee.specs.Root as Root;
ghost use Rattle.ieee.specs.Internal.{NearestRoot};

use crate::rounding::{Parts, is_finite, unpack};

// q * (q + 1) as high * 2^52 + low, by digits of 26 bits.
#[derive(Clone, Copy)]
struct Digits {
    high: u64,
    low: u64,
}

fn part(q: u64) -> Digits
    requires { q ≤ 2 ^ 53 }
    ensures { (result.high * 2 ^ 52 + result.low ≡ q * q + q) × (result.low < 2 ^ 52) }
{
    let a = q / 0x400_0000;
    let b = q % 0x400_0000;
    let low = b * b + q;
    let mid = 2 * a * b + low / 0x400_0000;
    Digits {
        high: a * a + mid / 0x400_0000,
        low: mid % 0x400_0000 * 0x400_0000 + low % 0x400_0000,
    }
}

fn from_one(s: f64) -> f64
    requires { is_nan s ≡ false }
    ensures { is_nan result ≡ false }
{
    if s < 1.0 { 1.0 } else { s }
}

// A number near the root of m * 2^(52 + odd), from floats: a guess at 1 / root by the halved exponent, two steps towards it, and one towards
// the root. Only the speed of `near` rests on how near it is.
fn seed(m: u64, odd: u64) -> u64
    requires { (m < 2 ^ 53) × (odd < 2) }
    ensures { (1 ≤ result) × (result ≤ 2 ^ 53) }
{
    let b = m + odd * 0x10_0000_0000_0000 + 0x3fe0_0000_0000_0000;
    let u = f64::from_bits(b);
    let y0 = f64::from_bits(0x5fe3_ffff_2000_0000 - b / 2);
    let y1 = y0 * (1.68191391 - u * 0.703952253 * y0 * y0);
    let e = u * y1 * y1;
    let y2 = y1 * (1.875 - 1.25 * e + 0.375 * (e * e));
    let s0 = u * y2;
    let s = s0 + 0.5 * y2 * (u - s0 * s0);
    if s < 2.0 {
        return 0x10_0000_0000_0000 + f64::to_bits(from_one(s)) % 0x10_0000_0000_0000;
    }
    0x10_0000_0000_0000
}

// The whole number nearest to the root of w * 2^52, by halving: for a seed that is not near.
fn bisect(w: u64) -> u64
    requires { (0 < w) × (w < 2 ^ 54) }
    ensures { NearestRoot (w * 2 ^ 52) result }
{
    let mut lo = 0;
    let mut hi = 0x20_0000_0000_0000;
    while lo + 1 < hi {
        let mid = (lo + hi) / 2;
        if part(mid).high < w {
            lo = mid;
        } else {
            hi = mid;
        }
    }
    hi
}

// The same from a seed: the seed itself, or one beside it, with no jump between the three.
fn near(m: u64, odd: u64) -> u64
    requires { (2 ^ 52 ≤ m) × (m < 2 ^ 53) × (odd < 2) }
    ensures { NearestRoot (m * (1 + odd) * 2 ^ 52) result }
{
    let w = m * (1 + odd);
    let q = seed(m, odd);
    let p = part(q);
    let h = p.high + 8;
    if w <= h && h < w + 16 {
        // q * q + q less w * 2^52, moved up by 2^55
        let d = (h - w) * 0x10_0000_0000_0000 + p.low;
        if 0x80_0000_0000_0000 <= d + 2 * q + 2 && d + 2 < 0x80_0000_0000_0000 + 4 * q {
            let up = (d < 0x80_0000_0000_0000) as u64;
            let down = (0x80_0000_0000_0000 + 2 * q <= d) as u64;
            return q + up - down;
        }
    }
    bisect(w)
}

// The root of m * 2^(e + 54) * 2^-2150.
fn finish(m: u64, e: u64) -> f64
    requires { (2 ^ 52 ≤ m) × (m < 2 ^ 53) × (e < 3068) }
    ensures { result ≡ Root.root_of (m * 2 ^ (e + 54)) }
{
    let q = near(m, e % 2);
    f64::from_bits(e / 2 * 0x10_0000_0000_0000 + q)
}

// m * 2^(e + 54) * 2^-2150, with m of 53 digits.
#[derive(Clone, Copy)]
struct Number {
    m: u64,
    e: u64,
}

fn raised(p: Parts) -> Number
    requires { (0 < p.sig) × (p.sig < 2 ^ 53) × (p.exp ≤ 2045) }
    ensures { (2 ^ 52 ≤ result.m) × (result.m < 2 ^ 53) × (result.e < 3068) × (result.m * 2 ^ (result.e + 54) ≡ p.sig * 2 ^ p.exp * 2 ^ 1076) }
{
    let z = p.sig.leading_zeros() as u64 - 11;
    Number {
        m: p.sig << z,
        e: p.exp + 1022 - z,
    }
}

pub fn root(x: f64) -> f64
    ensures { result ≡ Root.root x }
{
    if x > 0.0 {
        if is_finite(x) {
            let n = raised(unpack(x));
            return finish(n.m, n.e);
        }
        return x;
    }
    if x == 0.0 {
        return x;
    }
    f64::NAN
}

// The same root, sooner where x is next to 1, as the square of a unit's length is: it is half as far from 1, counted in
// last places, so that its pattern is the mean of the two.
pub fn root_next_to_one(x: f64) -> f64
    ensures { result ≡ Root.root x }
{
    if x > 0.0 {
        let b = x.to_bits();
        if (0x3fef_ffff_fc00_0000 <= b) & (b < 0x3ff0_0000_0400_0000) {
            return f64::from_bits((0x3ff0_0000_0000_0000 + b) / 2);
        }
    }
    root(x)
}
