// The tables that a build makes once: the box of each triangle, the centre of each box on each axis, and the order list.
ghost use Rattle.std.specs.Prelude.{◌≡◌, [], ◌∷◌, ◌+◌, ◌*◌, ◌^◌, ◌≤◌, ◌<◌, length};
ghost use Rattle.std.specs.Float.{binary32};
ghost use Rattle.shapes.specs.Values as Shapes;
ghost use Rattle.spec_tables.specs.Tables.{overwrite, concat_map};
ghost use Rattle.spec_lists.specs.Limits.{max_triangles};
ghost use Rattle.spec_lists.specs.Reading as Reading;
ghost use Rattle.spec_tree.specs.Order.{range};
ghost use Rattle.spec_tree.specs.Trees as Trees;
ghost use Rattle.spec_splits.specs.Splits.{place, box_in};
ghost use Rattle.spec_build.specs.Tries.{centre_on};
ghost use Rattle.spec_build.specs.Growing.{rows, CentresNeeds, CentresPut, Centred};

use lists::reading::box_at;
use shapes::box3::Box3;
use shapes::vec3::Axis;
use splits::table::{centre_on, place_of};

// Writes the box to place k of a table of boxes.
pub fn put_box(boxes: &mut [f32], k: usize, b: Box3)
    requires { 6 * k + 6 ≤ length boxes.old }
    ensures { boxes.new ≡ overwrite (6 * k) (Trees.six_of (Shapes.as_box b)) boxes.old }
{
    // Kept: (b) six stores: by `boxes[at..at + 6].copy_from_slice(&[..])` a build of one leaf takes 28 ns a triangle, not 22.
    let at = 6 * k;
    boxes[at] = b.min.x;
    boxes[at + 1] = b.min.y;
    boxes[at + 2] = b.min.z;
    boxes[at + 3] = b.max.x;
    boxes[at + 4] = b.max.y;
    boxes[at + 5] = b.max.z;
}

// Writes the boxes of the first `count` triangles, six numbers each.
pub fn put_bounds(triangles: &[f32], count: usize, bounds: &mut [f32])
    requires { (9 * count ≤ length triangles.now) × (6 * count ≤ length bounds.old) }
    ensures { bounds.new ≡ overwrite 0 (concat_map (λ t. Trees.six_of (Reading.box_at triangles.now t)) count) bounds.old }
{
    for t in 0..count {
        put_box(bounds, t, box_at(triangles, t));
    }
}

// Where the centres on an axis begin in a table that has this many rows an axis.
pub fn first_key(axis: Axis, rows: usize) -> usize
    requires { 3 * rows < 2 ^ 64 }
    ensures { result ≡ place (Shapes.as_axis axis) * rows }
{
    place_of(axis) * rows
}

// Writes the centres of the first `count` boxes on one axis to the front of the list.
fn put_keys(bounds: &[f32], axis: Axis, count: usize, keys: &mut [f32])
    requires { CentresNeeds bounds.now count (length keys.old) }
    ensures { keys.new
        ≡ overwrite 0 (concat_map (λ t. centre_on binary32 (box_in bounds.now) (Shapes.as_axis axis) t ∷ []) count) keys.old }
{
    for t in 0..count {
        keys[t] = centre_on(bounds, t as u32, axis);
    }
}

// Writes the centres of the first `count` boxes on one axis to that axis's slice of the table.
fn put_axis(bounds: &[f32], axis: Axis, count: usize, centres: &mut [f32])
    requires { CentresNeeds bounds.now count (rows centres.old) }
    ensures { CentresPut binary32 bounds.now (Shapes.as_axis axis) count centres.old centres.new }
{
    let rows = centres.len() / 3;
    let first = first_key(axis, rows);
    put_keys(bounds, axis, count, &mut centres[first..first + rows]);
}

// Writes the centres of the first `count` boxes on each axis.
pub fn put_centres(bounds: &[f32], count: usize, centres: &mut [f32])
    requires { CentresNeeds bounds.now count (rows centres.old) }
    ensures { Centred binary32 bounds.now count centres.old centres.new }
{
    put_axis(bounds, Axis::X, count, centres);
    put_axis(bounds, Axis::Y, count, centres);
    put_axis(bounds, Axis::Z, count, centres);
}

// Writes 0, 1 and so on, `count` numbers, to the front of the order list.
pub fn put_order(count: usize, order: &mut [u32])
    requires { (count ≤ max_triangles) × (count ≤ length order.old) }
    ensures { order.new ≡ overwrite 0 (range count) order.old }
{
    for number in 0..count {
        order[number] = number as u32;
    }
}
