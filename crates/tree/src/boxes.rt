// 75 node by node: whether it has the box that its triangles or its children give it, bit for bit, and which is the first that has not.
ghost use Rattle.std.specs.Prelude.{◌≡◌, ◌+◌, ◌-◌, ◌≤◌, ◌<◌, eqb, length};
ghost use Rattle.shapes.specs.Values as Shapes;
ghost use Rattle.spec_lists.specs.Reading as Reading;
ghost use Rattle.spec_tables.specs.Tables as Tables;
ghost use Rattle.spec_tree.specs.Accepted as Accepted;
ghost use Rattle.spec_tree.specs.Order as Order;
ghost use Rattle.spec_tree.specs.Reasons as Reasons;
ghost use Rattle.spec_tree.specs.Trees as Trees;
ghost use Rattle.tree.specs.Needs as Needs;

use crate::nodes::{Node, node_at, node_box};
use floats::same;
use lists::drawing::Drawing;
use lists::reading::box_at;
use shapes::box3::Box3;
use shapes::vec3::Vec3;

// The box of the first triangle joined with those of the others, from the left, as the definition joins them.
pub fn joined(triangles: &[f32], slice: &[u32]) -> Box3
    requires some { 0 < length slice.now }
    requires numbered { Order.EntriesBelow (Reading.triangle_count triangles.now) slice.now }
    ensures { Shapes.as_box result ≡ Trees.joined (Reading.box_at triangles.now) slice.now }
{
    let mut over = box_at(triangles, slice[0] as usize);
    for t in &slice[1..] {
        over = over.union_box(box_at(triangles, *t as usize));
    }
    over
}

// The box of the triangles that the order list numbers from `first` to before `last`.
fn range_box(triangles: &[f32], order: &[u32], first: usize, last: usize) -> Box3
    requires numbered { Order.EntriesBelow (Reading.triangle_count triangles.now) order.now }
    requires some { first < last }
    requires within { last ≤ length order.now }
    ensures { Shapes.as_box result
        ≡ Trees.joined (Reading.box_at triangles.now) (Tables.slice order.now first (last - first)) }
{
    joined(triangles, &order[first..last])
}

// Whether the points are the same bit for bit.
// Kept: (a) here and below a derived `==` would be IEEE's; `Accepted.same_point` and `Accepted.same_box` compare bits.
fn same_point(a: Vec3, b: Vec3) -> bool
    ensures { result ≡ Accepted.same_point (Shapes.as_point a) (Shapes.as_point b) }
{
    same(a.x, b.x) & same(a.y, b.y) & same(a.z, b.z)
}

// Whether the boxes are the same bit for bit.
fn same_box(a: Box3, b: Box3) -> bool
    ensures { result ≡ Accepted.same_box (Shapes.as_box a) (Shapes.as_box b) }
{
    same_point(a.min, b.min) & same_point(a.max, b.max)
}

// The box that a leaf's triangles give it, or a branch's children by the boxes that are stored for them.
fn given_box(drawing: &Drawing, node: usize) -> Box3
    requires { Needs.Boxable drawing.now.triangles.now drawing.now.order.now drawing.now.links.now
        drawing.now.boxes.now node }
    ensures { Shapes.as_box result ≡ Reasons.box_given (Reading.box_at drawing.now.triangles.now) drawing.now.order.now drawing.now.links.now
        drawing.now.boxes.now (eqb (Trees.kind_at drawing.now.links.now node) 1) node }
{
    match node_at(drawing.links, node) {
        Node::Leaf { first, last } => range_box(drawing.triangles, drawing.order, first, last),
        Node::Branch { left, right } => {
            node_box(drawing.boxes, left).union_box(node_box(drawing.boxes, right))
        }
    }
}

// Whether the node has the box that its triangles or its children give it.
fn is_boxed(drawing: &Drawing, node: usize) -> bool
    requires { Needs.Boxable drawing.now.triangles.now drawing.now.order.now drawing.now.links.now
        drawing.now.boxes.now node }
    ensures { result ≡ Reasons.is_boxed (Reading.box_at drawing.now.triangles.now) drawing.now.order.now drawing.now.links.now
        drawing.now.boxes.now node }
{
    same_box(given_box(drawing, node), node_box(drawing.boxes, node))
}

// The first node whose box differs, with this node looked at too: `unlike` is the first before it, or the node itself where none differs.
pub fn first_unlike(drawing: &Drawing, node: usize, unlike: usize) -> usize
    requires boxable { Needs.Boxable drawing.now.triangles.now drawing.now.order.now drawing.now.links.now
        drawing.now.boxes.now node }
    requires before { unlike ≡ Reasons.first_failing (Reasons.is_boxed (Reading.box_at drawing.now.triangles.now) drawing.now.order.now drawing.now.links.now
        drawing.now.boxes.now) node }
    ensures { result ≡ Reasons.first_failing (Reasons.is_boxed (Reading.box_at drawing.now.triangles.now) drawing.now.order.now drawing.now.links.now
        drawing.now.boxes.now) (node + 1) }
{
    if unlike < node {
        return unlike;
    }
    if is_boxed(drawing, node) {
        return node + 1;
    }
    node
}
