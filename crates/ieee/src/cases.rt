// The case of IEEE 754's clause 4.3.1 that an f64 is in when it is narrowed, and what the case says.
ghost use Rattle.std.specs.Prelude.{◌≡◌, ◌*◌, ◌^◌, ◌<◌, ◌≤◌, true};
ghost use Rattle.ieee.specs.Cases.{by_half, number, narrow_case, act};
ghost use Rattle.ieee.specs.Internal.{within, named, CutOff, Decided};

use crate::rounding::{capped, is_finite, unpack};

// Below 2^128 - 2^103: no overflow, no infinity and no NaN.
pub(crate) fn is_within(x: f64) -> bool
    ensures { result ≡ within x }
{
    (x < 3.4028235677973366e38) & (-3.4028235677973366e38 < x)
}

// The five cases. The C interface gives each by its number.
#[derive(Clone, Copy, PartialEq, Eq)]
pub(crate) enum Case {
    Overflow = 1,
    BelowHalf = 2,
    HalfEven = 3,
    HalfOdd = 4,
    AboveHalf = 5,
}

impl Case {
    fn number(self) -> u64
        ensures { result ≡ number (named self) }
    {
        self as u64
    }
}

// By the discarded part r against a half d, and by the last digit of q. With no jump: each choice is between two cases
// that are worked out before it.
fn by_half(q: u64, r: u64, d: u64) -> Case
    ensures { named result ≡ by_half q r d }
{
    let tie = if q % 2 == 0 {
        Case::HalfEven
    } else {
        Case::HalfOdd
    };
    let rest = if d < r { Case::AboveHalf } else { tie };
    if r < d { Case::BelowHalf } else { rest }
}

#[derive(Clone, Copy)]
struct Cut {
    pattern: u64,
    part: Case,
}

// sig * 2^exp / 2^1074 in whole last places of an f32, as a pattern, with the case that the discarded part makes.
// The leading digit is moved to place 61, and 38 of the 62 digits are cut off. A subnormal result is short of digits, and as many more are cut off: with 63
// of them no digit is left, and less than a half is discarded.
fn cut_off(sig: u64, exp: u64) -> Cut
    requires { (sig < 2 ^ 53) × (exp ≤ 2045) × (sig ≡ 0 → exp ≡ 0) }
    ensures { CutOff (sig * 2 ^ exp) (2 ^ 1074) result.pattern (named result.part) }
{
    let z = sig.leading_zeros() as u64;
    let t = exp + 64 - z;
    let w = sig << (z - 2);
    if 949 <= t {
        let q = w >> 38;
        return Cut {
            pattern: (t - 949) * 0x80_0000 + q,
            part: by_half(q, w << 26, 0x8000_0000_0000_0000),
        };
    }
    let n = 38 + capped(949 - t, 25);
    let q = w >> n;
    Cut {
        pattern: q,
        part: by_half(q, w << (64 - n), 0x8000_0000_0000_0000),
    }
}

#[derive(Clone, Copy)]
pub(crate) struct Decision {
    pub(crate) neg: bool,
    pub(crate) case: Case,
    pub(crate) cut: u64,
}

// The sign, the case and the cut pattern of a number that does not overflow.
pub(crate) fn decide(x: f64) -> Decision
    requires { within x ≡ true }
    ensures { Decided x result.neg (named result.case) result.cut }
{
    let p = unpack(x);
    let c = cut_off(p.sig, p.exp);
    Decision {
        neg: p.neg,
        case: c.part,
        cut: c.pattern,
    }
}

// The case alone says whether the pattern is made an infinity's, kept or raised by one.
pub(crate) fn act_on(case: Case, cut: u64) -> u64
    requires { cut < 2 ^ 40 }
    ensures { result ≡ act (named case) cut }
{
    // by the number, with no jump but for an overflow: the case cannot be foreseen
    let kept = cut + case.number() / 4;
    match case {
        Case::Overflow => 0x7f80_0000,
        _ => kept,
    }
}

// 1 overflow, 2 below half, 3 half and even, 4 half and odd, 5 above half; 0 for an infinity and for NaN, which are in no case.
pub fn narrow_case(x: f64) -> u64
    ensures { result ≡ narrow_case x }
{
    if is_within(x) {
        let d = decide(x);
        return d.case.number();
    }
    if is_finite(x) {
        Case::Overflow.number()
    } else {
        0
    }
}
