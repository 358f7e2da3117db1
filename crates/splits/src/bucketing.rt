// The boxes of a slice, put into twelve buckets by where their centres lie on an axis.
ghost use Rattle.std.specs.Prelude.{◌≡◌, ◌^◌, ◌<◌, length};
ghost use Rattle.std.specs.Float.{binary32};
ghost use Rattle.shapes.specs.Values as Shapes;
ghost use Rattle.spec_splits.specs.Splits as Splits;
ghost use Rattle.spec_splits.specs.Area as Area;
ghost use Rattle.splits.specs.Values as Costs;

use crate::buckets::Buckets;
use crate::table::{box_at, centre_on};
use shapes::box3::{Box3, offset_on};
use shapes::vec3::Axis;

// 12 times the offset, cut to a whole number, at most 11. A NaN and what is below zero give 0.
fn bucket_for(offset: f32) -> usize
    ensures { result ≡ Area.bucket_for binary32 offset }
{
    floats::cut(Buckets::COUNT_F32 * offset).min(Buckets::LAST)
}

// The lowest and the highest centre on an axis.
#[derive(Clone, Copy)]
pub struct Span {
    pub axis: Axis,
    pub lo: f32,
    pub hi: f32,
}

impl Span {
    // The bucket of triangle t's box.
    pub fn bucket_of(self, bounds: &[f32], t: u32) -> usize
        requires { Splits.InTable bounds.now t }
        ensures { result ≡ Costs.bucket_in self (Splits.box_in bounds.now t) }
    {
        bucket_for(offset_on(self.lo, self.hi, centre_on(bounds, t, self.axis)))
    }
}

// The lowest and the highest centre of the slice's boxes on the axis. The rule needs one axis only.
pub fn centre_span(bounds: &[f32], slice: &[u32], axis: Axis) -> Span
    requires { Splits.AllInTable bounds.now slice.now }
    ensures ends { Area.EndsOf (Shapes.as_axis axis) (Area.centre_bounds binary32 (Splits.boxes_in bounds.now slice.now))
        result.lo result.hi }
    ensures axis_is { result.axis ≡ axis }
{
    let none = Box3::empty();
    let mut lo = none.min.x;
    let mut hi = none.max.x;
    for t in slice {
        let centre = centre_on(bounds, *t, axis);
        lo = floats::min2(lo, centre);
        hi = floats::max2(hi, centre);
    }
    Span { axis, lo, hi }
}

// The slice's boxes in their buckets.
pub fn fill(bounds: &[f32], slice: &[u32], within: Span) -> Buckets
    requires slice_len_bound { length slice.now < 2 ^ 28 }
    requires all_in_table { Splits.AllInTable bounds.now slice.now }
    ensures { Costs.as_buckets result
        ≡ Area.filled binary32 (Costs.bucket_in within) (Splits.boxes_in bounds.now slice.now) }
{
    let mut buckets = Buckets::empty();
    for t in slice {
        let k = within.bucket_of(bounds, *t);
        buckets.each[k] = buckets.each[k].with_box(box_at(bounds, *t));
    }
    buckets
}
