// The leaves of a tree from left to right: how many there are, and each with its slice of the order list and its box.
// A left subtree is listed before the right one, so the nodes in their order meet the leaves from left to right.
ghost use Rattle.std.specs.Prelude.{◌≡◌, ◌+◌, ◌*◌, ◌≤◌, length};
ghost use Rattle.spec_tree.specs.Leaves as Leaves;
ghost use Rattle.leaves.specs.Values as Values;

use crate::reader::entry_of;
use lists::drawing::Drawing;
use lists::refusal::Refusal;
use shapes::box3::Box3;
use tree::calls::check;
use tree::nodes::{Node, node_at, node_box};

// A leaf: its triangles are the entries from `first` up to `last`, the end not included.
#[derive(Clone, Copy)]
pub struct LeafNode {
    pub node: usize,
    pub first: usize,
    pub last: usize,
    pub over: Box3,
}

// The k-th of the leaves from this node on, counted from 0. From node 0 on that is the tree's k-th leaf.
// The leaf behind a leaf is the first from the next node on, so a caller who goes through all of them passes each node once.
// Kept: (a) links, boxes and their count one by one, here and in `leaf_count`: in a `&Drawing` a caller would owe triangles and an order too.
pub fn leaf_from(
    links: &[u32],
    boxes: &[f32],
    nodes: usize,
    from: usize,
    k: usize,
) -> Option<LeafNode>
    requires { Leaves.NodesThere links.now boxes.now nodes }
    ensures { Values.as_leaf_option result ≡ Leaves.leaf_from links.now boxes.now nodes from k }
{
    let mut remaining = k;
    for node in from..nodes {
        match node_at(links, node) {
            Node::Leaf { first, last } => {
                if remaining == 0 {
                    let over = node_box(boxes, node);
                    return Some(LeafNode {
                        node,
                        first,
                        last,
                        over,
                    });
                }
                remaining -= 1;
            }
            Node::Branch { .. } => {}
        }
    }
    None
}

// How many leaves the tree has.
pub fn leaf_count(links: &[u32], nodes: usize) -> usize
    requires { 3 * nodes ≤ length links.now }
    ensures { result ≡ Leaves.leaf_count links.now nodes }
{
    let mut count = 0;
    for node in 0..nodes {
        match node_at(links, node) {
            Node::Leaf { .. } => count += 1,
            Node::Branch { .. } => {}
        }
    }
    count
}

// The tree's k-th leaf, counted from 0, nothing where there are fewer, or the first of the tests 1 to 4 and 71 to 75 that refuses.
// The lists may be any lists at all.
pub fn leaf(drawing: &Drawing, k: usize) -> Result<Option<LeafNode>, Refusal>
    ensures { Values.as_leaf_found result ≡ Leaves.leaf_answer drawing.now.triangles.now drawing.now.order.now
        drawing.now.links.now drawing.now.boxes.now drawing.now.nodes k }
{
    check(drawing)?;
    Ok(leaf_from(drawing.links, drawing.boxes, drawing.nodes, 0, k))
}

// How many leaves the tree has, or the first of the tests 1 to 4 and 71 to 75 that refuses. The lists may be any lists at all.
pub fn leaves(drawing: &Drawing) -> Result<usize, Refusal>
    ensures { Values.as_leaves_counted result ≡ Leaves.count_answer drawing.now.triangles.now drawing.now.order.now
        drawing.now.links.now drawing.now.boxes.now drawing.now.nodes }
{
    match check(drawing) {
        Ok(()) => Ok(leaf_count(drawing.links, drawing.nodes)),
        Err(refusal) => Err(refusal),
    }
}

// The i-th triangle of the tree's k-th leaf, both counted from 0, nothing where it has fewer, or the first of the tests 1 to 4 and 71 to 75
// that refuses. The lists may be any lists at all.
pub fn leaf_entry(drawing: &Drawing, k: usize, i: usize) -> Result<Option<u32>, Refusal>
    ensures { Values.as_entry_found result ≡ Leaves.entry_answer drawing.now.triangles.now drawing.now.order.now
        drawing.now.links.now drawing.now.boxes.now drawing.now.nodes k i }
{
    match leaf(drawing, k)? {
        Some(found) => Ok(entry_of(drawing.order, found.first, found.last, i)),
        None => Ok(None),
    }
}
