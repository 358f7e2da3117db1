// Numbers and their bit patterns. All patterns of a NaN count as one: the definitions have one NaN.
ghost use Rattle.std.specs.Prelude.{◌≡◌, from_bits, to_bits};
ghost use Rattle.std.specs.Float.{binary32};
ghost use Rattle.spec_numbers.specs.Same as Same;

use std::num::{f32_from_bits_with_nan, f32_to_bits_with_nan};

// The number of the pattern. Every pattern of a NaN gives the one NaN.
pub fn from_bits(pattern: u32) -> f32
    ensures { result ≡ from_bits binary32 pattern }
{
    f32_from_bits_with_nan(pattern)
}

// The pattern of x. A NaN, which has many, answers 7FC00000.
pub fn bits_of(x: f32) -> u32
    ensures { result ≡ to_bits binary32 x }
{
    f32_to_bits_with_nan(x)
}

// Whether the two are the same bit for bit. +0 and -0 are not, and a NaN is the same as a NaN.
// Kept: (a) `a == b` is no such equality; `Same.same` compares the patterns.
pub fn same(a: f32, b: f32) -> bool
    ensures { result ≡ Same.same a b }
{
    bits_of(a) == bits_of(b)
}
