// An f64 as an f32, to the nearest one, a tie to the even one.
ghost use Rattle.std.specs.Prelude.{◌≡◌, ℕ, ◌≤◌, ◌<◌, true, map, length, take, get_or, Float};
ghost use Rattle.std.specs.Float.{nan};
ghost use Rattle.lists.specs.Lists.{every, put};
ghost use Rattle.ieee.specs.Narrow.{narrowed};
ghost use Rattle.ieee.specs.Internal.{plain};

use crate::cases::{Case, act_on, decide, is_within};
use crate::rounding::signed32;

// By its case: the sign, and the cut pattern as it is, raised by one, or an infinity's. An infinity is left as if it overflowed.
pub fn narrow(x: f64) -> f32
    ensures { result ≡ narrowed x }
{
    if is_within(x) {
        let d = decide(x);
        return signed32(d.neg, act_on(d.case, d.cut));
    }
    if x != x {
        return f32::NAN;
    }
    signed32(x < 0.0, act_on(Case::Overflow, 0))
}

// 0, or from 2^-126 up to 2^127.
fn is_plain(x: f64) -> bool
    ensures { result ≡ plain x }
{
    let below = (x < 1.7014118346046923e38) & (-1.7014118346046923e38 < x);
    let above = (1.1754943508222875e-38 <= x) | (x <= -1.1754943508222875e-38);
    below & (above | (x == 0.0))
}

// With no way out of the loop, so that it is compiled to many entries at a time.
fn all_plain(list: &[f64]) -> bool
    ensures { result ≡ every plain list.now }
{
    let mut held = true;
    for x in list {
        held &= is_plain(*x);
    }
    held
}

// A plain number's mantissa is normal already: its last 29 digits are rounded off over whole numbers, and then the cast loses nothing.
fn narrow_plain(x: f64) -> f32
    requires { plain x ≡ true }
    ensures { result ≡ narrowed x }
{
    let b = x.to_bits();
    let odd = b / 0x2000_0000 % 2;
    let kept = (b + 0xfff_ffff + odd) / 0x2000_0000;
    f64::from_bits(kept * 0x2000_0000) as f32
}

// Each entry by one of the two functions.
fn narrow_by<F: Fn(f64) -> f32>(from: &[f64], to: &mut [f32], by: F)
    requires room { length from.now ≤ length to.old }
    requires may { (k : ℕ) → k < length from.now → F.pre by (get_or from.now k nan) }
    requires narrows { (x : Float) (y : Float) → F.post by x y → y ≡ narrowed x }
    ensures { to.new ≡ put to.old 0 (map narrowed from.now) }
{
    for (i, x) in from.iter().enumerate() {
        to[i] = by(*x);
    }
}

fn narrow_all(from: &[f64], to: &mut [f32])
    requires { length from.now ≤ length to.old }
    ensures { to.new ≡ put to.old 0 (map narrowed from.now) }
{
    if all_plain(from) {
        narrow_by(from, to, narrow_plain);
    } else {
        narrow_by(from, to, narrow);
    }
}

// Each entry narrowed, as many as there is room for.
pub fn narrow_list(from: &[f64], to: &mut [f32])
    ensures { to.new ≡ put to.old 0 (map narrowed (take (length to.old) from.now)) }
{
    let n = from.len().min(to.len());
    narrow_all(&from[..n], to);
}
