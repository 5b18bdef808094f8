// IEEE 754's squareRoot, fusedMultiplyAdd and convertFormat to f32, over whole numbers.
// Each unpacks its operands, makes a whole number that rounds as the exact result does, and hands it to the one rounding core.
#![tactic(auto)]

mod cases;
mod fused;
mod narrowing;
mod roots;
mod rounding;
mod wide;

pub use cases::narrow_case;
pub use fused::mul_add;
pub use narrowing::{narrow, narrow_list};
pub use roots::{root, root_next_to_one};
pub use rounding::is_finite;
