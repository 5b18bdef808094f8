// The scalar operations on floats that the operators leave open. Each contract equates the result with a definition of
// specs/, or with one of the logic's account of IEEE 754 (lib.Ieee), where there is one NaN and one type of values for
// both formats.
#![tactic(auto)]

ghost use Rattle.std.specs.Prelude.{◌≡◌, ◌+◌, ◌-◌, ◌*◌, ◌/◌, ◌%◌, ◌^◌, ◌<◌, ◌≤◌, false, T, ltb, map, pos, if◌then◌else◌, is_nan, nat_lt, Float};
ghost use mir.Val.{bool_byte};
ghost use Rattle.std.specs.Float.{binary64};
ghost use Rattle.std.specs.Float.Ieee.{rem, to_unsigned, to_signed, of_int, lt, fits};
ghost use Rattle.std.specs.Float.Ieee.Exact.{HasValue};
ghost use Rattle.float.specs.Order.{magnitude, larger, smaller, rank, ordered, tau, angle};
ghost use Rattle.float.specs.Whole.{floored, ceiled, truncation};
ghost use Rattle.float.specs.Exp.{bits, inverse_factorials, horner, doublings, scaled, exponential};
ghost use Rattle.float.specs.Log.{inverse_odds, ratio, combined, logarithm};
ghost use Rattle.float.specs.Power.{power};

// Its bits are 401921FB54442D18.
pub const TAU: f64 = 6.283185307179586;

// x with its sign cleared; of a NaN a NaN.
pub fn abs(x: f64) -> f64
    ensures { result ≡ magnitude x }
{
    if x != x {
        return x;
    }
    f64::from_bits(x.to_bits() % 0x8000_0000_0000_0000)
}

// The larger operand: the other one beside a NaN, and the first of zeros of both signs.
pub fn max(a: f64, b: f64) -> f64
    ensures { result ≡ larger a b }
{
    if (a != a) | (b > a) { b } else { a }
}

// The smaller operand, likewise.
pub fn min(a: f64, b: f64) -> f64
    ensures { result ≡ smaller a b }
{
    if (a != a) | (b < a) { b } else { a }
}

// x's rank in the total order.
fn place(x: f64) -> u64
    ensures { result ≡ rank x }
{
    if x != x {
        return 0xfff8_0000_0000_0000;
    }
    let b = x.to_bits();
    if b < 0x8000_0000_0000_0000 {
        return 0x8000_0000_0000_0000 + b;
    }
    0xffff_ffff_ffff_ffff - b
}

// IEEE's totalOrder: x is at or before y.
pub fn total_order(x: f64, y: f64) -> bool
    ensures { result ≡ ordered x y }
{
    place(x) <= place(y)
}

// x at the wider format, which holds every f32.
pub fn widen(x: f32) -> f64
    ensures { result ≡ x }
{
    std::num::f32_to_f64_with_nan(x)
}

// How many of a pattern's lowest digits are the fraction, by the exponent's field: 1075 less the field, and below 1023 all but the sign.
fn fraction_digits(field: u64) -> u64
    requires { field ≤ 1074 }
    ensures { (result ≡ (if ltb field 1023 then 63 else 1075 - field)) × (result ≤ 63) }
{
    if field < 1023 { 63 } else { 1075 - field }
}

// Toward zero, to the nearest end of the range, NaN to 0. Below 2 to the power of 52 the digits are shifted with no jump that depends on them.
pub fn to_u64(x: f64) -> u64
    ensures { result ≡ to_unsigned 64 x }
{
    if 0.0 < x {
        let b = x.to_bits();
        let field = b / 0x10_0000_0000_0000;
        if field <= 1074 {
            let digits = b % 0x10_0000_0000_0000 + 0x10_0000_0000_0000;
            return digits >> fraction_digits(field);
        }
        if x < 18446744073709551616.0 {
            return std::num::truncating_f64_to_u64(x);
        }
        return u64::MAX;
    }
    0
}

// The same at i64.
pub fn to_i64(x: f64) -> i64
    ensures { result ≡ to_signed 63 x }
{
    if x >= -9223372036854775808.0 {
        if x < 9223372036854775808.0 {
            return std::num::truncating_f64_to_i64(x);
        }
        return i64::MAX;
    }
    if x != x { 0 } else { i64::MIN }
}

// The f64 nearest to n.
pub fn of_u64(n: u64) -> f64
    ensures { result ≡ of_int binary64 (pos n) }
{
    std::num::nearest_u64_to_f64(n)
}

// TAU is this many times 2 to the power of -50.
const TAU_DIGITS: u64 = 0x19_21FB_5444_2D18;

const LAST_PLACE: f64 = 8.881784197001252e-16;

// The remainder by TAU's digits of these digits with k zeros behind them, a zero at a time.
fn digits_by_tau(digits: u64, k: u64) -> u64
    ensures { (result ≡ digits * 2 ^ k % 0x19_21FB_5444_2D18) × (result < 2 ^ 53) }
{
    let mut r = digits % TAU_DIGITS;
    for _i in 0..k {
        r = 2 * r % TAU_DIGITS;
    }
    r
}

// The remainder by TAU, with the sign of x. Below TAU either way it is x. From there on it is taken of the digits: `%`
// on floats would call the C library's `fmod`, which not every C library has under the name that is linked.
fn remainder(x: f64) -> f64
    ensures { result ≡ rem binary64 x tau }
{
    if (x < TAU) & (-TAU < x) {
        return x;
    }
    if x != x {
        return x;
    }
    let b = x.to_bits();
    let field = b % 0x8000_0000_0000_0000 / 0x10_0000_0000_0000;
    if field == 2047 {
        return f64::NAN;
    }
    let r = digits_by_tau(b % 0x10_0000_0000_0000 + 0x10_0000_0000_0000, field - 1025);
    if b < 0x8000_0000_0000_0000 {
        of_u64(r) * LAST_PLACE
    } else {
        of_u64(r) * -LAST_PLACE
    }
}

// The remainder by TAU: a remainder below 0 has TAU added, and -0.0 is not below 0.
pub fn rem_tau(x: f64) -> f64
    ensures { result ≡ angle x }
{
    let t = remainder(x);
    if t < 0.0 { t + TAU } else { t }
}

// x without its fraction; from the field 1075 on there is none.
fn truncated(x: f64) -> f64
    ensures { result ≡ truncation x }
{
    if x != x {
        return x;
    }
    let b = x.to_bits();
    let field = b % 0x8000_0000_0000_0000 / 0x10_0000_0000_0000;
    if field > 1074 {
        return x;
    }
    let s = fraction_digits(field);
    f64::from_bits((b >> s) << s)
}

// The largest whole number that is not above x; a zero keeps its sign.
pub fn floor(x: f64) -> f64
    ensures { result ≡ floored x }
{
    let r = truncated(x);
    if r > x { r - 1.0 } else { r }
}

// The smallest whole number that is not below x; -0.5 gives -0.0.
pub fn ceiling(x: f64) -> f64
    ensures { result ≡ ceiled x }
{
    let r = truncated(x);
    if r < x { r + 1.0 } else { r }
}

// The sum of r ^ j / j! for j up to 13.
fn series(r: f64) -> f64
    ensures { result ≡ horner r (bits 0x3DE6_1246_13A8_6D09) inverse_factorials }
{
    let p = 1.6059043836821613e-10;
    let p = p * r + 2.08767569878681e-09;
    let p = p * r + 2.505210838544172e-08;
    let p = p * r + 2.755731922398589e-07;
    let p = p * r + 2.7557319223985893e-06;
    let p = p * r + 2.48015873015873e-05;
    let p = p * r + 0.0001984126984126984;
    let p = p * r + 0.001388888888888889;
    let p = p * r + 0.008333333333333333;
    let p = p * r + 0.041666666666666664;
    let p = p * r + 0.16666666666666666;
    let p = p * r + 0.5;
    let p = p * r + 1.0;
    p * r + 1.0
}

// The floor of y * L + 0.5. Adding 1.5 * 2 ^ 52 rounds to a whole number, and taking it off again is exact; so there is no jump.
fn doublings(y: f64) -> f64
    requires { (is_nan y ≡ false) × (lt y (bits 0xC087_4999_9999_999A) ≡ false) × (lt (bits 0x4086_2E51_EB85_1EB8) y ≡ false) }
    ensures { result ≡ doublings y }
{
    let x = y * 1.4426950408889634 + 0.5;
    let near = (x + 6755399441055744.0) - 6755399441055744.0;
    if x < near { near - 1.0 } else { near }
}

// E from -745.2 to 709.79: y is k * ln 2 + r with a small r, so the answer is the series at r, times 2 ^ k by two products. The last digits of k + 2046 + 1.5 * 2 ^ 52 are the exponents' fields of both
// powers together, and half of them, rounded down, is that of 2 ^ h.
fn exp_within(y: f64) -> f64
    requires { (is_nan y ≡ false) × (lt y (bits 0xC087_4999_9999_999A) ≡ false) × (lt (bits 0x4086_2E51_EB85_1EB8) y ≡ false) }
    ensures { result ≡ scaled y (doublings y) }
{
    let k = doublings(y);
    let r = (y - k * 0.6931471803691238) - k * 1.9082149292705877e-10;
    let fields = (k + 6755399441057790.0).to_bits() % 4096;
    let first = fields / 2;
    let p = series(r) * f64::from_bits(first * 0x10_0000_0000_0000);
    p * f64::from_bits((fields - first) * 0x10_0000_0000_0000)
}

// y where E is worked out, and 0 where it is not.
fn bounded(y: f64) -> f64
    ensures { result ≡ (if is_nan y then bits 0 else (if lt y (bits 0xC087_4999_9999_999A) then bits 0 else (if lt (bits 0x4086_2E51_EB85_1EB8) y then bits 0 else y))) }
{
    if (y != y) | (y < -745.2) | (y > 709.79) {
        0.0
    } else {
        y
    }
}

// The exponential E(y). The ends are chosen last, so that a loop over it has no jump.
pub fn exp(y: f64) -> f64
    ensures { result ≡ exponential y }
{
    let e = exp_within(bounded(y));
    if y != y {
        return y;
    }
    if y < -745.2 {
        return 0.0;
    }
    if y > 709.79 {
        return f64::INFINITY;
    }
    e
}

// E of each entry.
pub fn exp_list(list: &mut [f64])
    ensures { list.new ≡ map exponential list.old }
{
    for y in list.iter_mut() {
        *y = exp(*y);
    }
}

// The sum of t ^ j / (2 * j + 1) for j up to 10.
fn odd_series(t: f64) -> f64
    ensures { result ≡ horner t (bits 0x3FA8_6186_1861_8618) inverse_odds }
{
    let q = 0.047619047619047616;
    let q = q * t + 0.05263157894736842;
    let q = q * t + 0.058823529411764705;
    let q = q * t + 0.06666666666666667;
    let q = q * t + 0.07692307692307693;
    let q = q * t + 0.09090909090909091;
    let q = q * t + 0.1111111111111111;
    let q = q * t + 0.14285714285714285;
    let q = q * t + 0.2;
    let q = q * t + 0.3333333333333333;
    q * t + 1.0
}

// The logarithm of m * 2 ^ e: the last steps.
fn ln_by(m: f64, e: f64) -> f64
    ensures { result ≡ combined (ratio m) e }
{
    let s = (m - 1.0) / (m + 1.0);
    let q = odd_series(s * s);
    e * 0.6931471803691238 + (2.0 * s * q + e * 1.9082149292705877e-10)
}

// How often an m with these digits behind its leading one is halved: once where it is above 1.4142135623730951.
fn halvings(digits: u64) -> u64
    ensures { (result ≡ bool_byte (nat_lt 0x6_A09E_667F_3BCD digits)) × (result ≤ 1) }
{
    (digits > 0x6_a09e_667f_3bcd) as u64
}

// The logarithm of the number with the digits of the normal pattern b, and with its field less `bias` for an exponent.
// m gets the exponent's field of 1, or one less, which halves it; so there is no jump.
fn ln_digits(b: u64, bias: u64) -> f64
    requires { (2 ^ 52 ≤ b) × (b < 2047 * 2 ^ 52) × (bias ≤ 1086) }
    ensures { (x : Float) → T (fits binary64 x) → HasValue x false ((2 ^ 52 + b % 2 ^ 52) * 2 ^ (b / 2 ^ 52 - 1)) (2 ^ (51 + bias)) → result ≡ logarithm x }
{
    let digits = b % 0x10_0000_0000_0000;
    let up = halvings(digits);
    let m = f64::from_bits((1023 - up) * 0x10_0000_0000_0000 + digits);
    let field = b / 0x10_0000_0000_0000 + up;
    ln_by(m, field as f64 - bias as f64)
}

// The logarithm. A subnormal number's digits are moved up by its leading zeros to be a normal number's.
pub fn ln(x: f64) -> f64
    ensures { result ≡ logarithm x }
{
    if x > 0.0 {
        let b = x.to_bits();
        if b < 0x10_0000_0000_0000 {
            let z = b.leading_zeros() as u64 - 11;
            return ln_digits(b << z, 1023 + z);
        }
        if b < 0x7ff0_0000_0000_0000 {
            return ln_digits(b, 1023);
        }
        return x;
    }
    if x == 0.0 {
        return f64::NEG_INFINITY;
    }
    f64::NAN
}

// r to the power n. The exponent falls at each call: a u32 has at most 32 halves.
pub fn power(r: f64, n: u32) -> f64
    ensures { result ≡ power r n }
{
    if n == 0 {
        return 1.0;
    }
    let half = power(r, n / 2);
    let square = half * half;
    if n % 2 == 1 {
        return square * r;
    }
    square
}
