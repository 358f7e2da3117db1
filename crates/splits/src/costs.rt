// The cost of each cut between two buckets, and the first of the smallest costs.
ghost use Rattle.std.specs.Prelude.{◌≡◌, ◌+◌};
ghost use Rattle.std.specs.Float.{binary32};
ghost use Rattle.shapes.specs.Values as Shapes;
ghost use Rattle.spec_splits.specs.Buckets as Spec;
ghost use Rattle.spec_splits.specs.Area as Area;
ghost use Rattle.splits.specs.Values as Values;

use crate::buckets::{Bucket, Buckets};
use shapes::box3::Box3;

// The first smallest of the costs seen so far, and whether each was a number.
#[derive(Clone, Copy)]
pub struct Cheapest {
    pub index: usize,
    pub cost: f32,
    pub are_numbers: bool,
}

// count * area
fn weight_of(side: Bucket) -> f32
    ensures { result ≡ Area.weight binary32 (Values.as_bucket side) }
{
    std::num::nearest_u32_to_f32(side.count) * side.bounds.area()
}

// The cost of a cut with these two sides.
fn cost_of(parent: Box3, left: Bucket, right: Bucket) -> f32
    ensures { result ≡ Area.cost binary32 (Shapes.as_box parent) (Values.as_bucket left) (Values.as_bucket right) }
{
    if (left.count == 0) | (right.count == 0) {
        return f32::INFINITY;
    }
    0.125 + (weight_of(left) + weight_of(right)) / parent.area()
}

// The side behind the cut after each bucket. Going down, each bucket is merged once.
fn right_sides(buckets: Buckets) -> Buckets
    requires { Spec.AreSmall binary32 (Values.as_buckets buckets) }
    ensures { Values.as_buckets result ≡ Spec.sides_down binary32 (Values.as_buckets buckets) }
{
    let mut sides = Buckets::empty();
    let mut right = Bucket::empty();
    for i in (0..Buckets::LAST).rev() {
        right = right.merged(buckets.each[i + 1]);
        sides.each[i] = right;
    }
    sides
}

// The cost of each of the 11 cuts. The cut after bucket i has the buckets up to i on its left, merged going up, and the others on its right.
// The source merges all twelve anew for each cut. Plain boxes give the same sides either way.
pub fn costs_of(buckets: Buckets, parent: Box3) -> [f32; Buckets::CUTS]
    requires are_small { Spec.AreSmall binary32 (Values.as_buckets buckets) }
    requires are_plain { Spec.ArePlain binary32 (Values.as_buckets buckets) }
    ensures { result ≡ Area.costs binary32 (Shapes.as_box parent) (Values.as_buckets buckets) }
{
    let rights = right_sides(buckets);
    let mut costs = [0.0; Buckets::CUTS];
    let mut left = Bucket::empty();
    for i in 0..Buckets::CUTS {
        left = left.merged(buckets.each[i]);
        costs[i] = cost_of(parent, left, rights.each[i]);
    }
    costs
}

impl Cheapest {
    // No cost was seen yet.
    fn none_yet() -> Cheapest
        ensures { Values.cheapest_among 0 result ≡ Area.none_yet }
    {
        Cheapest {
            index: 0,
            cost: f32::INFINITY,
            are_numbers: true,
        }
    }

    // The cost of the cut after bucket i was seen too.
    fn with_cost(self, i: usize, cost: f32) -> Cheapest
        ensures { Values.cheapest_among (i + 1) result ≡ Area.with_cost (Values.cheapest_among i self) cost }
    {
        let are_numbers = self.are_numbers & !cost.is_nan();
        if cost < self.cost {
            return Cheapest {
                index: i,
                cost,
                are_numbers,
            };
        }
        Cheapest {
            are_numbers,
            ..self
        }
    }
}

// The first smallest of the costs.
pub fn cheapest_of(costs: [f32; Buckets::CUTS]) -> Cheapest
    ensures { Values.as_cheapest result ≡ Area.cheapest_of costs }
{
    let mut best = Cheapest::none_yet();
    for (i, cost) in costs.iter().enumerate() {
        best = best.with_cost(i, *cost);
    }
    best
}
