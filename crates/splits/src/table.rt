// The table of the triangles' boxes: six numbers each, the smallest x y z, then the largest.
// A build makes it once, so that no rule computes a box again.
ghost use Rattle.std.specs.Prelude.{◌≡◌, ◌+◌, ◌<◌, ◌≤◌, length};
ghost use Rattle.std.specs.Float.{binary32};
ghost use Rattle.spec_shapes.specs.Points as Points;
ghost use Rattle.spec_shapes.specs.Boxes as Boxes;
ghost use Rattle.shapes.specs.Values as Shapes;
ghost use Rattle.spec_splits.specs.Splits as Splits;
ghost use Rattle.spec_tree.specs.Trees as Trees;

use shapes::box3::Box3;
use shapes::vec3::{Axis, Vec3};

// The point whose coordinates begin at this index.
fn point_at(bounds: &[f32], at: usize) -> Vec3
    requires { at + 3 ≤ length bounds.now }
    ensures { Shapes.as_point result ≡ Trees.point_from bounds.now at }
{
    Vec3 {
        x: bounds[at],
        y: bounds[at + 1],
        z: bounds[at + 2],
    }
}

// The box of triangle t.
pub fn box_at(bounds: &[f32], t: u32) -> Box3
    requires { Splits.InTable bounds.now t }
    ensures { Shapes.as_box result ≡ Splits.box_in bounds.now t }
{
    let at = 6 * t as usize;
    Box3 {
        min: point_at(bounds, at),
        max: point_at(bounds, at + 3),
    }
}

// Where the coordinate of an axis stands in a point.
pub fn place_of(axis: Axis) -> usize
    ensures { result ≡ Splits.place (Shapes.as_axis axis) }
{
    axis as usize
}

// The centre of the box of triangle t on one axis.
pub fn centre_on(bounds: &[f32], t: u32, axis: Axis) -> f32
    requires { Splits.InTable bounds.now t }
    ensures { result ≡ Points.on (Shapes.as_axis axis) (Boxes.centre binary32 (Splits.box_in bounds.now t)) }
{
    let at = 6 * t as usize + place_of(axis);
    (bounds[at] + bounds[at + 3]) / 2.0
}

// Kept: (d) `boxes: &Boxes { bounds, slice, ghost in_table }`: contracts read `boxes.now.bounds.now`, and each half of a slice is proved anew.

// The smallest box around the boxes of the slice's triangles, joined from the left.
// Kept: (d) tree's `joined` is a twin over another table: one fold with `box_of: impl Fn(u32) -> Box3` asks of each number that a table has it.
pub fn union_of(bounds: &[f32], slice: &[u32]) -> Box3
    requires slice_nonzero { 0 < length slice.now }
    requires all_in_table { Splits.AllInTable bounds.now slice.now }
    ensures { Shapes.as_box result ≡ Splits.union_of binary32 (Splits.boxes_in bounds.now slice.now) }
{
    let mut joined = box_at(bounds, slice[0]);
    for t in &slice[1..] {
        joined = joined.union_box(box_at(bounds, *t));
    }
    joined
}
