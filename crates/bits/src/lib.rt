// Floats and their bit patterns, also where the float is a NaN, at which the language's own conversions are undefined.
#![tactic(auto)]

ghost use Rattle.std.specs.Prelude.{◌≡◌};
ghost use Rattle.std.specs.Float.{binary32, binary64};
ghost use Rattle.std.specs.Float.Ieee.{of_bits, to_bits};

// The float of a bit pattern: a NaN for every pattern of a NaN.
pub fn float64(b: u64) -> f64
    ensures { result ≡ of_bits binary64 b }
{
    if b % 0x8000_0000_0000_0000 > 0x7ff0_0000_0000_0000 {
        f64::NAN
    } else {
        f64::from_bits(b)
    }
}

pub fn float32(b: u32) -> f32
    ensures { result ≡ of_bits binary32 b }
{
    if b % 0x8000_0000 > 0x7f80_0000 {
        f32::NAN
    } else {
        f32::from_bits(b)
    }
}

// The same at the wider format, which holds every f32: one test where two calls make two, and `f64::from` another.
pub fn widened(b: u32) -> f64
    ensures { result ≡ of_bits binary32 b }
{
    if b % 0x8000_0000 > 0x7f80_0000 {
        f64::NAN
    } else {
        f32::from_bits(b) as f64
    }
}

// The bit pattern of a float: one and the same for every NaN.
pub fn bits64(x: f64) -> u64
    ensures { result ≡ to_bits binary64 x }
{
    if x != x {
        0x7ff8_0000_0000_0000
    } else {
        x.to_bits()
    }
}

pub fn bits32(x: f32) -> u32
    ensures { result ≡ to_bits binary32 x }
{
    if x != x { 0x7fc0_0000 } else { x.to_bits() }
}
