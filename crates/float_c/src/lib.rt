// The number operations for a caller in C or Rust: each one under its own definition.
#![tactic(auto)]

ghost use Rattle.std.specs.Prelude.{◌≡◌, pos};
ghost use Rattle.ieee.specs.Root.{root};
ghost use Rattle.ieee.specs.Fused.{fused};
ghost use Rattle.ieee.specs.Narrow.{narrowed};
ghost use Rattle.ieee.specs.Cases.{narrow_case};
ghost use Rattle.std.specs.Float.{binary64};
ghost use Rattle.std.specs.Float.Ieee.{to_unsigned, to_signed, of_int};
ghost use Rattle.std.specs.Float.Ieee.Scale.{finite};
ghost use Rattle.float.specs.Order.{magnitude, larger, smaller, ordered, angle};
ghost use Rattle.float.specs.Whole.{floored, ceiled};
ghost use Rattle.float.specs.Exp.{exponential};
ghost use Rattle.float.specs.Log.{logarithm};
ghost use Rattle.float.specs.Power.{power};
ghost use Rattle.float_c.specs.Narrows.{narrowed_all};

#[unsafe(no_mangle)]
pub extern "C" fn float_root(x: f64) -> f64
    ensures { result ≡ root x }
{
    ieee::root(x)
}

#[unsafe(no_mangle)]
pub extern "C" fn float_mul_add(a: f64, b: f64, c: f64) -> f64
    ensures { result ≡ fused a b c }
{
    ieee::mul_add(a, b, c)
}

#[unsafe(no_mangle)]
pub extern "C" fn float_narrow(x: f64) -> f32
    ensures { result ≡ narrowed x }
{
    ieee::narrow(x)
}

#[unsafe(no_mangle)]
pub extern "C" fn float_narrow_case(x: f64) -> u64
    ensures { result ≡ narrow_case x }
{
    ieee::narrow_case(x)
}

#[unsafe(no_mangle)]
pub extern "C" fn float_exp(y: f64) -> f64
    ensures { result ≡ exponential y }
{
    float::exp(y)
}

#[unsafe(no_mangle)]
pub extern "C" fn float_ln(x: f64) -> f64
    ensures { result ≡ logarithm x }
{
    float::ln(x)
}

#[unsafe(no_mangle)]
pub extern "C" fn float_power(r: f64, n: u32) -> f64
    ensures { result ≡ power r n }
{
    float::power(r, n)
}

#[unsafe(no_mangle)]
pub extern "C" fn float_is_finite(x: f64) -> bool
    ensures { result ≡ finite x }
{
    ieee::is_finite(x)
}

#[unsafe(no_mangle)]
pub extern "C" fn float_widen(x: f32) -> f64
    ensures { result ≡ x }
{
    float::widen(x)
}

#[unsafe(no_mangle)]
pub extern "C" fn float_floor(x: f64) -> f64
    ensures { result ≡ floored x }
{
    float::floor(x)
}

#[unsafe(no_mangle)]
pub extern "C" fn float_ceiling(x: f64) -> f64
    ensures { result ≡ ceiled x }
{
    float::ceiling(x)
}

#[unsafe(no_mangle)]
pub extern "C" fn float_to_u64(x: f64) -> u64
    ensures { result ≡ to_unsigned 64 x }
{
    float::to_u64(x)
}

#[unsafe(no_mangle)]
pub extern "C" fn float_to_i64(x: f64) -> i64
    ensures { result ≡ to_signed 63 x }
{
    float::to_i64(x)
}

#[unsafe(no_mangle)]
pub extern "C" fn float_of_u64(n: u64) -> f64
    ensures { result ≡ of_int binary64 (pos n) }
{
    float::of_u64(n)
}

#[unsafe(no_mangle)]
pub extern "C" fn float_total_order(x: f64, y: f64) -> bool
    ensures { result ≡ ordered x y }
{
    float::total_order(x, y)
}

#[unsafe(no_mangle)]
pub extern "C" fn float_max(a: f64, b: f64) -> f64
    ensures { result ≡ larger a b }
{
    float::max(a, b)
}

#[unsafe(no_mangle)]
pub extern "C" fn float_min(a: f64, b: f64) -> f64
    ensures { result ≡ smaller a b }
{
    float::min(a, b)
}

#[unsafe(no_mangle)]
pub extern "C" fn float_abs(x: f64) -> f64
    ensures { result ≡ magnitude x }
{
    float::abs(x)
}

#[unsafe(no_mangle)]
pub extern "C" fn float_rem_tau(x: f64) -> f64
    ensures { result ≡ angle x }
{
    float::rem_tau(x)
}

// Narrows as many as both lists have. What `out` has beyond that stays.
#[unsafe(no_mangle)]
pub extern "C" fn float_narrow_all(xs: &[f64], out: &mut [f32])
    ensures { out.new ≡ narrowed_all xs.now out.old }
{
    ieee::narrow_list(xs, out);
}
