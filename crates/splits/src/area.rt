// The area rule: cuts a slice where the areas of both sides, weighted by their counts, sum to the least.
ghost use Rattle.std.specs.Prelude.{◌≡◌, ◌^◌, ◌<◌, length};
ghost use Rattle.std.specs.Float.{binary32};
ghost use Rattle.shapes.specs.Values as Shapes;
ghost use Rattle.spec_splits.specs.Splits as Splits;
ghost use Rattle.spec_splits.specs.Area as Area;
ghost use Rattle.splits.specs.Values as Values;

use crate::bucketing::{Span, centre_span, fill};
use crate::costs::{Cheapest, cheapest_of, costs_of};
use shapes::box3::Box3;
use shapes::vec3::Axis;

// Cuts before the first entry whose box lies in a bucket later than k.
fn first_later(bounds: &[f32], slice: &[u32], within: Span, k: usize) -> Option<usize>
    requires { Splits.AllInTable bounds.now slice.now }
    ensures { Values.as_split result
        ≡ Area.first_later (Values.bucket_in within) k (Splits.boxes_in bounds.now slice.now) 0 }
{
    slice.iter().position(|t| k < within.bucket_of(bounds, *t))
}

// Cuts at the first smallest cost, if that is below the cost of a leaf, which is the count of the slice. Where a cost is a NaN it cuts nowhere.
fn cut_by(bounds: &[f32], slice: &[u32], within: Span, best: Cheapest) -> Option<usize>
    requires slice_len_bound { length slice.now < 2 ^ 28 }
    requires all_in_table { Splits.AllInTable bounds.now slice.now }
    ensures { Values.as_split result
        ≡ Area.cut_by binary32 (Values.bucket_in within) (Values.as_cheapest best) (Splits.boxes_in bounds.now slice.now) }
{
    let leaf_cost = std::num::nearest_u32_to_f32(slice.len() as u32);
    if best.are_numbers & (best.cost < leaf_cost) {
        return first_later(bounds, slice, within, best.index);
    }
    None
}

// Cuts where the rule says, or nowhere.
pub fn area_split(bounds: &[f32], slice: &[u32], axis: Axis, parent: Box3) -> Option<usize>
    requires slice_len_bound { length slice.now < 2 ^ 28 }
    requires boxed { Splits.Boxed binary32 bounds.now slice.now }
    ensures { Values.as_split result
        ≡ Area.area_split binary32 (Shapes.as_axis axis) (Shapes.as_box parent) (Splits.boxes_in bounds.now slice.now) }
{
    let within = centre_span(bounds, slice, axis);
    let buckets = fill(bounds, slice, within);
    let best = cheapest_of(costs_of(buckets, parent));
    cut_by(bounds, slice, within, best)
}
