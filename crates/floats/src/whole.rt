// The cut of a number to a whole one, as Rust casts it.
ghost use Rattle.std.specs.Prelude.{◌≡◌};
ghost use Rattle.spec_numbers.specs.Values as Values;

// x without its fraction, as Rust's `as usize` has it: 0 for a NaN and below zero, the largest usize where x is 2 ^ 64 or more.
pub fn cut(x: f32) -> usize
    ensures { result ≡ Values.cut x }
{
    std::num::saturating_f32_to_usize(x)
}
