// What the engine needs of f32 beyond the operators. Every function answers for every input, NaN, infinities and both zeros included.
// Its contract is an equation with a definition of `spec_numbers`.
#![tactic(auto)]

mod bits;
mod order;
mod whole;

pub use bits::{bits_of, from_bits, same};
pub use order::{absolute, held, is_finite, lower, max2, min2, plus_zero, raise};
pub use whole::cut;
