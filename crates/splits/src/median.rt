// The median rule: cuts a slice in the middle, unless that separates too little.
ghost use Rattle.std.specs.Prelude.{◌≡◌, ◌<◌, ◌≤◌, length};
ghost use Rattle.std.specs.Float.{binary32};
ghost use Rattle.shapes.specs.Values as Shapes;
ghost use Rattle.spec_splits.specs.Splits as Splits;
ghost use Rattle.spec_splits.specs.Median as Median;
ghost use Rattle.splits.specs.Values as Cuts;

use crate::table::{box_at, centre_on, union_of};
use shapes::box3::Box3;
use shapes::plane3::{Plane3, unit_of};
use shapes::vec3::Axis;

// The plane across the axis, half way between the centres of two triangles' boxes.
fn plane_between(bounds: &[f32], axis: Axis, above: u32, below: u32) -> Plane3
    requires above_in_table { Splits.InTable bounds.now above }
    requires below_in_table { Splits.InTable bounds.now below }
    ensures { Shapes.as_plane result
        ≡ Median.plane_between binary32 (Shapes.as_axis axis) (Splits.box_in bounds.now above) (Splits.box_in bounds.now below) }
{
    let mean = (centre_on(bounds, above, axis) + centre_on(bounds, below, axis)) * 0.5;
    Plane3 {
        normal: unit_of(axis),
        distance: mean,
    }
}

// Whether the plane cuts or touches every box of the slice.
fn all_meet(bounds: &[f32], slice: &[u32], plane: Plane3) -> bool
    requires { Splits.AllInTable bounds.now slice.now }
    ensures { result ≡ Median.all_meet binary32 (Shapes.as_plane plane) (Splits.boxes_in bounds.now slice.now) }
{
    slice
        .iter()
        .all(|t| plane.intersects_box3(box_at(bounds, *t)))
}

// Whether the plane between the two neighbours of the cut cuts or touches every box of the slice.
fn all_meet_at(bounds: &[f32], slice: &[u32], axis: Axis, cut: usize) -> bool
    requires cut_nonzero { 0 < cut }
    requires cut_in_bounds { cut < length slice.now }
    requires all_in_table { Splits.AllInTable bounds.now slice.now }
    ensures { result ≡ Median.all_meet_at binary32 (Shapes.as_axis axis) (Splits.boxes_in bounds.now slice.now) cut }
{
    all_meet(
        bounds,
        slice,
        plane_between(bounds, axis, slice[cut], slice[cut - 1]),
    )
}

// Whether the volume of the slice's box over the parent's exceeds 0.8.
fn is_large(bounds: &[f32], slice: &[u32], parent: Box3) -> bool
    requires slice_nonzero { 0 < length slice.now }
    requires all_in_table { Splits.AllInTable bounds.now slice.now }
    ensures { result ≡ Median.is_large binary32 (Shapes.as_box parent) (Splits.boxes_in bounds.now slice.now) }
{
    union_of(bounds, slice).volume() / parent.volume() > 0.8
}

// Whether both children of the cut are large. The box of the right one is computed only where the left one is large.
fn are_both_large(bounds: &[f32], slice: &[u32], cut: usize, parent: Box3) -> bool
    requires cut_nonzero { 0 < cut }
    requires cut_in_bounds { cut < length slice.now }
    requires all_in_table { Splits.AllInTable bounds.now slice.now }
    ensures { result ≡ Median.are_both_large binary32 (Shapes.as_box parent) (Splits.boxes_in bounds.now slice.now) cut }
{
    is_large(bounds, &slice[..cut], parent) && is_large(bounds, &slice[cut..], parent)
}

// Cuts in the middle. Where the plane there cuts or touches every box, or both children are large, it cuts nowhere.
pub fn median_split(bounds: &[f32], slice: &[u32], axis: Axis, parent: Box3) -> Option<usize>
    requires in_bounds { 2 ≤ length slice.now }
    requires boxed { Splits.Boxed binary32 bounds.now slice.now }
    ensures { Cuts.as_split result
        ≡ Median.median_split binary32 (Shapes.as_axis axis) (Shapes.as_box parent) (Splits.boxes_in bounds.now slice.now) }
{
    let cut = slice.len() / 2;
    if all_meet_at(bounds, slice, axis, cut) || are_both_large(bounds, slice, cut, parent) {
        return None;
    }
    Some(cut)
}
