// The lent list as `node_sums` fills it: first with the sums of all nodes, each in the place of its dipole, then with the dipoles.
ghost use Rattle.std.specs.Prelude.{◌≡◌, ◌+◌, ◌-◌, ◌*◌, ◌≤◌, length};
ghost use Rattle.std.specs.Float.{binary32};
ghost use Rattle.spec_tables.specs.Tables as Tables;
ghost use Rattle.spec_lists.specs.Reading as Reading;
ghost use Rattle.spec_tree.specs.Order as Order;
ghost use Rattle.spec_dipoles.specs.Sums as Defined;
ghost use Rattle.spec_dipoles.specs.Calls as Calls;
ghost use Rattle.spec_dipoles.specs.Stored as Stored;
ghost use Rattle.dipoles.specs.Values as Values;

use crate::dipole::{Dipole, dipole_at, dipole_of, put_dipole};
use crate::sums::{Sums, leaf_sums};
use lists::drawing::Drawing;
use tree::nodes::{Node, node_at, node_box};

// The sums that stand in the place of the node's dipole.
fn restored_at(sums: &[f32], node: usize) -> Sums
    requires { 16 * node + 16 ≤ length sums.now }
    ensures { Values.as_sums result ≡ Stored.restored (Calls.dipole_at sums.now node) }
{
    let d = dipole_at(sums, node);
    Sums {
        normal: d.first,
        moments: d.second,
        area: d.radius,
        centre: d.centre,
    }
}

// Writes sums in the place of the node's dipole.
fn store(out: &mut [f32], node: usize, sums: Sums)
    requires { 16 * node + 16 ≤ length out.old }
    ensures { out.new ≡ Tables.overwrite (16 * node) (Calls.sixteen_of (Stored.stored (Values.as_sums sums))) out.old }
{
    put_dipole(
        out,
        node,
        Dipole {
            first: sums.normal,
            second: sums.moments,
            radius: sums.area,
            centre: sums.centre,
        },
    );
}

// The sums of the triangles that the order list numbers from `first` to before `last`.
fn range_sums(drawing: &Drawing, first: usize, last: usize) -> Sums
    requires numbered { Order.EntriesBelow (Reading.triangle_count drawing.now.triangles.now) drawing.now.order.now }
    requires within { (first ≤ last) × (last ≤ length drawing.now.order.now) }
    ensures { Values.as_sums result
        ≡ Defined.leaf_sums binary32 (Reading.triangle_at drawing.now.triangles.now)
        (Tables.slice drawing.now.order.now first (last - first)) }
{
    leaf_sums(drawing.triangles, &drawing.order[first..last])
}

// The sums of a node: a leaf's of its triangles, a branch's of its children's, which stand in the list.
fn sums_from(drawing: &Drawing, sums: &[f32], node: usize) -> Sums
    requires { Stored.NodeIn drawing.now.triangles.now drawing.now.order.now drawing.now.links.now sums.now node }
    ensures { Values.as_sums result
        ≡ Stored.sums_from binary32 drawing.now.triangles.now drawing.now.order.now drawing.now.links.now sums.now
        node }
{
    match node_at(drawing.links, node) {
        Node::Leaf { first, last } => range_sums(drawing, first, last),
        Node::Branch { left, right } => {
            let from_left = restored_at(sums, left);
            let from_right = restored_at(sums, right);
            from_left.plus(from_right)
        }
    }
}

// Writes the sums of all nodes. Children stand before their parent, so that theirs are there when it comes.
pub fn store_sums(drawing: &Drawing, out: &mut [f32])
    requires readable { Stored.Readable drawing.now.triangles.now drawing.now.order.now drawing.now.links.now
        drawing.now.nodes }
    requires room { 16 * drawing.now.nodes ≤ length out.old }
    ensures { out.new
        ≡ Tables.overwrite 0 (Stored.stored_sums binary32 drawing.now.triangles.now drawing.now.order.now
        drawing.now.links.now drawing.now.nodes) out.old }
{
    for node in 0..drawing.nodes {
        let sums = sums_from(drawing, out, node);
        store(out, node, sums);
    }
}

// Writes the dipoles of all nodes, each over the sums of which it is made.
pub fn make_dipoles(drawing: &Drawing, out: &mut [f32])
    requires boxed { 6 * drawing.now.nodes ≤ length drawing.now.boxes.now }
    requires room { 16 * drawing.now.nodes ≤ length out.old }
    ensures { out.new
        ≡ Tables.overwrite 0 (Stored.made_dipoles binary32 drawing.now.boxes.now out.old drawing.now.nodes) out.old }
{
    for k in 0..drawing.nodes {
        let dipole = dipole_of(node_box(drawing.boxes, k), restored_at(out, k));
        put_dipole(out, k, dipole);
    }
}
