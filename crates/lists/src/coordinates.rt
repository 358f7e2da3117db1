// Numbers in range, and the first of a list that is out of range.
ghost use Rattle.std.specs.Prelude.{◌≡◌, not, position};
ghost use Rattle.spec_lists.specs.Refusals as Refusals;

use crate::limits;

// Whether x is from low to high, both included. A NaN is not.
pub fn is_within(low: f32, high: f32, x: f32) -> bool
    ensures { result ≡ Refusals.within low high x }
{
    (low <= x) & (x <= high)
}

// Whether x is a coordinate that the engine takes.
pub fn is_coordinate(x: f32) -> bool
    ensures { result ≡ Refusals.is_coordinate x }
{
    is_within(-limits::FURTHEST_COORDINATE, limits::FURTHEST_COORDINATE, x)
}

// The index of the first number that is no coordinate.
pub fn first_bad(numbers: &[f32]) -> Option<usize>
    ensures { result ≡ position (λ x. not (Refusals.is_coordinate x)) numbers.now }
{
    numbers.iter().position(|x| !is_coordinate(*x))
}
