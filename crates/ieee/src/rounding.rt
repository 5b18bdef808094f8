// The rounding core: a whole number and a power of two to the bit pattern of the nearest float, and a float to its parts.
// Exponents are moved up by a constant, so that all numbers are unsigned: 4096 for a pattern, 5170 = 4096 + 1074 for an f64.
ghost use Rattle.std.specs.Prelude.{◌≡◌, ◌+◌, ◌-◌, ◌*◌, ◌^◌, ◌<◌, ◌≤◌, min, true, if◌then◌else◌, from_bits};
ghost use mir.Val.{bool_byte};
ghost use Rattle.std.specs.Float.{binary32, binary64};
ghost use Rattle.std.specs.Float.Ieee.{round, top, ones, hid};
ghost use Rattle.std.specs.Float.Ieee.Nearest.{closest};
ghost use Rattle.std.specs.Float.Ieee.Scale as Scale;
ghost use Rattle.ieee.specs.Internal.{pattern, Unpacked};

// w / 2^(n + 1), to the nearest whole number, a tie to the even one. `some` says that w goes on: the number is more than w, and less than w + 1.
pub(crate) fn cut(w: u64, some: bool, n: u64) -> u64
    requires { n < 64 }
    ensures { result ≡ closest (2 * w + bool_byte some) (4 * 2 ^ n) }
{
    let q = (w / 2) >> n;
    let rest = w - (q << n) * 2;
    let odd = (some | (q % 2 == 1)) as u64;
    let half = 1 << n;
    q + (half - odd < rest) as u64
}

// The pattern of p digits for (2n + some) * 2^t / 2^4161 units of a format's smallest value; n has its leading digit at the top.
pub(crate) fn pattern_top(n: u64, some: bool, t: u64, p: u64) -> u64
    requires { (2 ^ 63 ≤ n) × (t ≤ 8100) × (2 ≤ p) × (p ≤ 53) }
    ensures { result ≡ pattern p ((2 * n + bool_byte some) * 2 ^ t) (2 ^ 4161) }
{
    if 4096 + p <= t {
        return ((t - p - 4096) << (p - 1)) + cut(n, some, 63 - p);
    }
    if t < 4096 {
        return 0;
    }
    cut(n, some, 4159 - t)
}

// The same for any w * 2^e / 2^4096 units.
pub(crate) fn pattern_of(w: u64, e: u64, p: u64) -> u64
    requires { (e ≤ 8000) × (2 ≤ p) × (p ≤ 53) }
    ensures { result ≡ pattern p (w * 2 ^ e) (2 ^ 4096) }
{
    if w == 0 {
        return 0;
    }
    let z = w.leading_zeros() as u64;
    pattern_top(w << z, false, e + 64 - z, p)
}

pub(crate) fn capped(m: u64, most: u64) -> u64
    ensures { result ≡ min m most }
{
    m.min(most)
}

// The float of a sign and a pattern.
pub(crate) fn signed32(neg: bool, m: u64) -> f32
    requires { m ≤ ones binary32 * hid binary32 }
    ensures { result ≡ from_bits binary32 ((if neg then top binary32 else 0) + m) }
{
    let b = m as u32;
    if neg {
        f32::from_bits(0x8000_0000 + b)
    } else {
        f32::from_bits(0 + b)
    }
}

// The same, with a pattern that is held to an infinity's.
pub(crate) fn signed64(neg: bool, m: u64) -> f64
    ensures { result ≡ from_bits binary64 ((if neg then top binary64 else 0) + min m (ones binary64 * hid binary64)) }
{
    let b = capped(m, 0x7ff0_0000_0000_0000);
    if neg {
        f64::from_bits(0x8000_0000_0000_0000 + b)
    } else {
        f64::from_bits(0 + b)
    }
}

// w * 2^e / 2^5170, rounded.
pub(crate) fn round64(neg: bool, w: u64, e: u64) -> f64
    requires { e ≤ 8000 }
    ensures { result ≡ round binary64 neg (w * 2 ^ e) (2 ^ 5170) }
{
    signed64(neg, pattern_of(w, e, 53))
}

// Neither a NaN nor an infinity.
pub fn is_finite(x: f64) -> bool
    ensures { result ≡ Scale.finite x }
{
    let infinity = f64::from_bits(0x7ff0_0000_0000_0000);
    (x < infinity) & (-infinity < x)
}

// The parts of a finite number: sig * 2^exp / 2^1074 with its sign.
#[derive(Clone, Copy)]
pub(crate) struct Parts {
    pub(crate) neg: bool,
    pub(crate) sig: u64,
    pub(crate) exp: u64,
}

pub(crate) fn unpack(x: f64) -> Parts
    requires { Scale.finite x ≡ true }
    ensures { Unpacked x result.neg result.sig result.exp }
{
    let b = x.to_bits();
    let neg = b >= 0x8000_0000_0000_0000;
    let field = b / 0x10_0000_0000_0000 % 2048;
    let digits = b % 0x10_0000_0000_0000;
    if field == 0 {
        return Parts {
            neg,
            sig: digits,
            exp: 0,
        };
    }
    Parts {
        neg,
        sig: 0x10_0000_0000_0000 + digits,
        exp: field - 1,
    }
}
