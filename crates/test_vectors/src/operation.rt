// The operations under test.
ghost use Rattle.std.specs.Prelude.{◌≡◌, ◌≤◌, ◌<◌};
ghost use Rattle.test_vectors.specs.Signed.{complement};

#[derive(Clone, Copy, PartialEq, Eq)]
pub enum Operation {
    Root,
    MulAdd,
    Narrow,
    Widen,
    Floor,
    Ceiling,
    ToU64,
    ToI64,
    OfU64,
    TotalOrder,
    Max,
    Min,
    Abs,
    IsFinite,
    RemTau,
    Exp,
    ExpList,
    Ln,
    NarrowCase,
    Power,
}

use Operation::{
    Abs, Ceiling, Exp, ExpList, Floor, IsFinite, Ln, Max, Min, MulAdd, Narrow, NarrowCase, OfU64,
    Power, RemTau, Root, ToI64, ToU64, TotalOrder, Widen,
};

pub const COUNT: usize = 20;

// All of them, in the order of the report.
pub const ALL: [Operation; COUNT] = [
    Root, MulAdd, Narrow, Widen, Floor, Ceiling, ToU64, ToI64, OfU64, TotalOrder, Max, Min, Abs,
    IsFinite, RemTau, Exp, ExpList, Ln, NarrowCase, Power,
];

impl Operation {
    pub fn name(self) -> &'static str {
        match self {
            Root => "root",
            MulAdd => "mul_add",
            Narrow => "narrow",
            Widen => "widen",
            Floor => "floor",
            Ceiling => "ceiling",
            ToU64 => "to_u64",
            ToI64 => "to_i64",
            OfU64 => "of_u64",
            TotalOrder => "total_order",
            Max => "max",
            Min => "min",
            Abs => "abs",
            IsFinite => "is_finite",
            RemTau => "rem_tau",
            Exp => "exp",
            ExpList => "exp_list",
            Ln => "ln",
            NarrowCase => "narrow_case",
            Power => "power",
        }
    }

    // The operation of this name.
    pub fn named(text: &[u8]) -> Option<Operation> {
        ALL.iter().copied().find(|o| o.name().as_bytes() == text)
    }

    // Its place in the report.
    pub fn place(self) -> usize
        ensures { result < 20 }
    {
        self as usize
    }

    // How many operands the operation has.
    pub fn operands(self) -> usize
        ensures { result ≤ 3 }
    {
        match self {
            MulAdd => 3,
            TotalOrder | Max | Min | Power => 2,
            _ => 1,
        }
    }

    // How many digits an operand has.
    pub fn operand_width(self) -> usize
        ensures { result ≤ 16 }
    {
        match self {
            Widen => 8,
            _ => 16,
        }
    }

    // How many digits the result has.
    pub fn result_width(self) -> usize
        ensures { result ≤ 16 }
    {
        match self {
            Narrow => 8,
            TotalOrder | IsFinite | NarrowCase => 1,
            _ => 16,
        }
    }

    // The bits of what the operation gives of its operands' bits.
    pub fn run(self, a: u64, b: u64, c: u64) -> u64 {
        let x = bits::float64(a);
        let y = bits::float64(b);
        match self {
            Root => bits::bits64(ieee::root(x)),
            MulAdd => bits::bits64(ieee::mul_add(x, y, bits::float64(c))),
            Narrow => u64::from(bits::bits32(ieee::narrow(x))),
            Widen => bits::bits64(float::widen(bits::float32(low(a)))),
            Floor => bits::bits64(float::floor(x)),
            Ceiling => bits::bits64(float::ceiling(x)),
            ToU64 => float::to_u64(x),
            ToI64 => bits_signed(float::to_i64(x)),
            OfU64 => bits::bits64(float::of_u64(a)),
            TotalOrder => u64::from(float::total_order(x, y)),
            Max => bits::bits64(float::max(x, y)),
            Min => bits::bits64(float::min(x, y)),
            Abs => bits::bits64(float::abs(x)),
            IsFinite => u64::from(ieee::is_finite(x)),
            RemTau => bits::bits64(float::rem_tau(x)),
            Exp => bits::bits64(float::exp(x)),
            ExpList => bits::bits64(exp_in_list(x)),
            Ln => bits::bits64(float::ln(x)),
            NarrowCase => ieee::narrow_case(x),
            Power => bits::bits64(float::power(x, low(b))),
        }
    }

    // The bits of an expected result: where it is a float every NaN counts as one.
    pub fn settled(self, want: u64) -> u64 {
        match self {
            ToU64 | ToI64 | TotalOrder | IsFinite | NarrowCase => want,
            Narrow => u64::from(bits::bits32(bits::float32(low(want)))),
            _ => bits::bits64(bits::float64(want)),
        }
    }
}

// The two's complement.
fn bits_signed(n: i64) -> u64
    ensures { result ≡ complement n }
{
    n.cast_unsigned()
}

// The low 32 bits: a word of 8 digits has no others, nor has an exponent.
fn low(n: u64) -> u32 {
    (n % 0x1_0000_0000) as u32
}

// E by the list: long enough for what the compiler does several entries at a time.
fn exp_in_list(x: f64) -> f64 {
    let mut list = [x; 9];
    float::exp_list(&mut list);
    list[4]
}
