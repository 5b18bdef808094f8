// x * y + z, rounded once.
ghost use Rattle.std.specs.Prelude.{◌≡◌, ℕ, ◌+◌, ◌-◌, ◌*◌, ◌%◌, ◌^◌, ◌<◌, ◌≤◌, not, ◌&&◌, if◌then◌else◌};
ghost use Rattle.std.specs.Bool.{beq};
ghost use Rattle.std.specs.Float.{binary64};
ghost use Rattle.std.specs.Float.Ieee.{sum, unlike};
ghost use Rattle.ieee.specs.Fused.{fused};
ghost use Rattle.std.specs.Float.Ieee.Scale.{finite};
ghost use Rattle.ieee.specs.Internal.{Aligned, wide, Addable, Placed};

use crate::rounding::{Parts, is_finite, unpack};
use crate::wide::{Wide, jam, joined, less, product, round_wide, shifted};

// The sign of a sum, by the order of its sides: an exact zero of unlike signs is +0. With no jump.
fn sign(sa: bool, sb: bool, under: bool, zero: bool) -> bool
    ensures { result ≡ (if beq sa sb then sa else (if under then sb else sa && not zero)) }
{
    (under & sb) | ((!under & sa) & (!zero | (sa == sb)))
}

// Two sides of a sum, a * 2^t and b * 2^t over 2^5170, with their signs.
#[derive(Clone, Copy)]
struct Sides {
    sa: bool,
    a: Wide,
    sb: bool,
    b: Wide,
    t: u64,
}

// The sum, rounded. b may stand for a fraction B / m.
fn sum_sides(s: Sides) -> f64
    requires { (s.a.hi < 2 ^ 63) × (s.b.hi < 2 ^ 63) × (s.t ≤ 7900) }
    ensures { (B m : ℕ) → 0 < m → Addable (wide s.a.hi s.a.lo) (wide s.b.hi s.b.lo) B m
        → result ≡ sum binary64 s.sa (wide s.a.hi s.a.lo * m * 2 ^ s.t) s.sb (B * 2 ^ s.t) (m * 2 ^ 5170) }
{
    let under = less(s.a, s.b);
    let w = joined(s.sa == s.sb, under, s.a, s.b);
    round_wide(sign(s.sa, s.sb, under, (w.hi == 0) & (w.lo == 0)), w, s.t)
}

// A number that is not 0, with its leading digit near the top of two words: w * 2^t.
#[derive(Clone, Copy)]
struct Term {
    w: Wide,
    t: u64,
}

fn product_term(m: u64, n: u64, e: u64) -> Term
    requires { (0 < m) × (m < 2 ^ 53) × (0 < n) × (n < 2 ^ 53) × (e ≤ 4090) }
    ensures { Placed (m * n) (e + 3022) result.w.hi result.w.lo result.t }
{
    let y = m.leading_zeros() as u64 - 1;
    let z = n.leading_zeros() as u64 - 1;
    Term {
        w: product(m << y, n << z),
        t: e + 3022 - y - z,
    }
}

fn addend_term(k: u64, g: u64) -> Term
    requires { (0 < k) × (k < 2 ^ 53) × (g ≤ 2045) }
    ensures { Placed k (g + 4096) result.w.hi result.w.lo result.t }
{
    let z = k.leading_zeros() as u64 - 2;
    Term {
        w: Wide { hi: k << z, lo: 0 },
        t: g + 4032 - z,
    }
}

// Two terms of which a has the higher scale: b is cut to it.
fn at_scale(sa: bool, a: Term, sb: bool, b: Term) -> Sides
    requires { (2 ^ 60 ≤ a.w.hi) × (a.w.hi < 2 ^ 62) × (a.w.lo % 1024 ≡ 0) × (b.w.hi < 2 ^ 62) × (b.w.lo % 1024 ≡ 0) × (b.t ≤ a.t) × (a.t ≤ 7900) }
    ensures { Aligned sa (wide a.w.hi a.w.lo * 2 ^ a.t) sb (wide b.w.hi b.w.lo * 2 ^ b.t) result }
{
    Sides {
        sa,
        a: a.w,
        sb,
        b: jam(b.w, a.t - b.t),
        t: a.t,
    }
}

// m * n * 2^e / 2^2148 and k * 2^g / 2^1074 with their signs, whatever their scales.
fn aligned_far(sp: bool, m: u64, n: u64, e: u64, sc: bool, k: u64, g: u64) -> Sides
    requires { (m < 2 ^ 53) × (n < 2 ^ 53) × (e ≤ 4090) × (k < 2 ^ 53) × (g ≤ 2045) }
    ensures { Aligned sp (m * n * 2 ^ (e + 3022)) sc (k * 2 ^ (g + 4096)) result }
{
    let none = Wide { hi: 0, lo: 0 };
    if (m == 0) | (n == 0) {
        return Sides {
            sa: sp,
            a: none,
            sb: sc,
            b: Wide { hi: 0, lo: k },
            t: g + 4096,
        };
    }
    if k == 0 {
        return Sides {
            sa: sp,
            a: product(m, n),
            sb: sc,
            b: none,
            t: e + 3022,
        };
    }
    let p = product_term(m, n, e);
    let q = addend_term(k, g);
    if q.t <= p.t {
        return at_scale(sp, p, sc, q);
    }
    at_scale(sc, q, sp, p)
}

// The same; where the scales are near enough for two words, both sides are exact there, which is the common case.
fn aligned(sp: bool, m: u64, n: u64, e: u64, sc: bool, k: u64, g: u64) -> Sides
    requires { (m < 2 ^ 53) × (n < 2 ^ 53) × (e ≤ 4090) × (k < 2 ^ 53) × (g ≤ 2045) }
    ensures { Aligned sp (m * n * 2 ^ (e + 3022)) sc (k * 2 ^ (g + 4096)) result }
{
    let d = (g + 1063).wrapping_sub(e);
    if d < 63 {
        return Sides {
            sa: sp,
            a: product(m, n),
            sb: sc,
            b: shifted(k, d),
            t: e + 3022,
        };
    }
    aligned_far(sp, m, n, e, sc, k, g)
}

fn fused_finite(p: Parts, q: Parts, c: Parts) -> f64
    requires { (p.sig < 2 ^ 53) × (q.sig < 2 ^ 53) × (p.exp ≤ 2045) × (q.exp ≤ 2045) × (c.sig < 2 ^ 53) × (c.exp ≤ 2045) }
    ensures { result ≡ sum binary64 (unlike p.neg q.neg) (p.sig * q.sig * 2 ^ (p.exp + q.exp + 3022)) c.neg (c.sig * 2 ^ (c.exp + 4096)) (2 ^ 5170) }
{
    sum_sides(aligned(
        p.neg != q.neg,
        p.sig,
        q.sig,
        p.exp + q.exp,
        c.neg,
        c.sig,
        c.exp,
    ))
}

// Whether all three are finite: one test where x * y + z is, as it mostly is.
fn all_finite(x: f64, y: f64, z: f64) -> bool
    ensures { result ≡ (finite x && (finite y && finite z)) }
{
    if is_finite(x * y + z) {
        return true;
    }
    is_finite(x) & (is_finite(y) & is_finite(z))
}

pub fn mul_add(x: f64, y: f64, z: f64) -> f64
    ensures { result ≡ fused x y z }
{
    if all_finite(x, y, z) {
        return fused_finite(unpack(x), unpack(y), unpack(z));
    }
    if is_finite(x) & is_finite(y) {
        return z;
    }
    x * y + z
}
