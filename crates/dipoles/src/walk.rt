// The walk by dipoles for one point, from the root down.
ghost use Rattle.std.specs.Prelude.{◌≡◌, ◌+◌, ◌-◌, ◌*◌, ◌≤◌, length};
ghost use Rattle.std.specs.Float.{binary32};
ghost use Rattle.shapes.specs.Values as Shapes;
ghost use Rattle.spec_tables.specs.Tables as Tables;
ghost use Rattle.spec_lists.specs.Reading as Reading;
ghost use Rattle.spec_tree.specs.Order as Order;
ghost use Rattle.spec_dipoles.specs.Far as Far;
ghost use Rattle.spec_dipoles.specs.Fast as Fast;
ghost use Rattle.spec_dipoles.specs.Calls as Calls;
ghost use Rattle.spec_dipoles.specs.Stored as Stored;

use crate::dipole::dipole_at;
use crate::far::term_or_nan;
use angles::arc_tangent::ArcTable;
use angles::solid_angle::solid_angle_by;
use floats::is_finite;
use lists::drawing::Drawing;
use lists::reading::triangle_at;
use shapes::vec3::Vec3;
use std::f32::consts::PI;
use tree::nodes::{Node, node_at};

// What is asked: a point, and the accuracy scale.
#[derive(Clone, Copy)]
pub struct Probe {
    pub point: Vec3,
    pub accuracy: f32,
}

// The exact winding number of the triangles of a slice of the order list, by the lent table of arc tangents.
fn slice_winding(table: &ArcTable, triangles: &[f32], slice: &[u32], q: Vec3) -> f32
    requires { Order.EntriesBelow (Reading.triangle_count triangles.now) slice.now }
    ensures { result ≡ Fast.slice_winding binary32 (Reading.triangle_at triangles.now) slice.now (Shapes.as_point q) }
{
    let mut sum: f32 = 0.0;
    for t in slice {
        sum += solid_angle_by(table, triangle_at(triangles, *t as usize), q);
    }
    sum / (4.0 * PI)
}

// The exact winding number of the triangles of a leaf.
fn leaf_winding(
    table: &ArcTable,
    drawing: &Drawing,
    first: usize,
    last: usize,
    probe: &Probe,
) -> f32
    requires numbered { Order.EntriesBelow (Reading.triangle_count drawing.now.triangles.now) drawing.now.order.now }
    requires within { (first ≤ last) × (last ≤ length drawing.now.order.now) }
    ensures { result ≡ Fast.slice_winding binary32 (Reading.triangle_at drawing.now.triangles.now)
        (Tables.slice drawing.now.order.now first (last - first)) (Shapes.as_point probe.now.point) }
{
    slice_winding(
        table,
        drawing.triangles,
        &drawing.order[first..last],
        probe.point,
    )
}

// The node's far term, or a NaN where the probe is not far from it.
fn term_at(sums: &[f32], node: usize, probe: &Probe) -> f32
    requires { 16 * node + 16 ≤ length sums.now }
    ensures { result
        ≡ Far.term_or_nan binary32 (Calls.dipole_at sums.now node) probe.now.accuracy (Shapes.as_point probe.now.point) }
{
    term_or_nan(dipole_at(sums, node), probe.accuracy, probe.point)
}

// The winding number of what hangs at the node. `levels` levels may be looked at.
pub fn walk(
    table: &ArcTable,
    drawing: &Drawing,
    sums: &[f32],
    probe: &Probe,
    levels: usize,
    node: usize,
) -> f32
    requires { Stored.NodeIn drawing.now.triangles.now drawing.now.order.now drawing.now.links.now sums.now node }
    ensures { result
        ≡ Fast.fast_at binary32 (Reading.triangle_at drawing.now.triangles.now) drawing.now.order.now
        drawing.now.links.now (Calls.dipole_at sums.now) probe.now.accuracy (Shapes.as_point probe.now.point) levels node }
{
    if levels == 0 {
        return 0.0;
    }
    let term = term_at(sums, node, probe);
    if is_finite(term) {
        return term;
    }
    match node_at(drawing.links, node) {
        Node::Leaf { first, last } => leaf_winding(table, drawing, first, last, probe),
        Node::Branch { left, right } => {
            let from_left = walk(table, drawing, sums, probe, levels - 1, left);
            let from_right = walk(table, drawing, sums, probe, levels - 1, right);
            from_left + from_right
        }
    }
}
