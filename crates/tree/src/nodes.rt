// A node in the lent lists: three links, which are its kind and two numbers, and a box of six numbers.
ghost use Rattle.std.specs.Prelude.{◌≡◌, ◌+◌, ◌*◌, ◌≤◌, eqb, length};
ghost use Rattle.shapes.specs.Values as Shapes;
ghost use Rattle.spec_tree.specs.Trees as Trees;
ghost use Rattle.tree.specs.Values as Values;

use shapes::box3::Box3;
use shapes::vec3::Vec3;

// Whether the entry is just before `next`.
fn is_before(entry: u32, next: usize) -> bool
    ensures { result ≡ eqb (entry + 1) next }
{
    entry as usize + 1 == next
}

// The kind of the node: 1 for a leaf, 2 for a branch.
pub fn kind_at(links: &[u32], node: usize) -> u32
    requires { 3 * node + 3 ≤ length links.now }
    ensures { result ≡ Trees.kind_at links.now node }
{
    links[3 * node]
}

// Where a leaf's triangles begin in the order list, or a branch's left child.
pub fn left_at(links: &[u32], node: usize) -> usize
    requires { 3 * node + 3 ≤ length links.now }
    ensures { result ≡ Trees.left_at links.now node }
{
    links[3 * node + 1] as usize
}

// Where a leaf's triangles end, the end not included, or a branch's right child.
pub fn right_at(links: &[u32], node: usize) -> usize
    requires { 3 * node + 3 ≤ length links.now }
    ensures { result ≡ Trees.right_at links.now node }
{
    links[3 * node + 2] as usize
}

// What stands at a node: a leaf's entries of the order list, from `first` up to `last`, the end not included; or a branch's two children.
#[derive(Clone, Copy)]
pub enum Node {
    Leaf { first: usize, last: usize },
    Branch { left: usize, right: usize },
}

// What stands at the node of a tree: kind 1 is a leaf, and all else a branch. The check, which meets any kinds, reads them as they are.
pub fn node_at(links: &[u32], node: usize) -> Node
    requires { 3 * node + 3 ≤ length links.now }
    ensures { Values.StandsAt links.now node result }
{
    let left = left_at(links, node);
    let right = right_at(links, node);
    if kind_at(links, node) == 1 {
        return Node::Leaf {
            first: left,
            last: right,
        };
    }
    Node::Branch { left, right }
}

// Whether a branch's left child stands just before `next`.
pub fn is_left_before(links: &[u32], node: usize, next: usize) -> bool
    requires { 3 * node + 3 ≤ length links.now }
    ensures { result ≡ eqb (Trees.left_at links.now node + 1) next }
{
    is_before(links[3 * node + 1], next)
}

// Whether a branch's right child stands just before `next`.
pub fn is_right_before(links: &[u32], node: usize, next: usize) -> bool
    requires { 3 * node + 3 ≤ length links.now }
    ensures { result ≡ eqb (Trees.right_at links.now node + 1) next }
{
    is_before(links[3 * node + 2], next)
}

// The three numbers from index i on, as they are.
pub fn point_from(numbers: &[f32], i: usize) -> Vec3
    requires { i + 3 ≤ length numbers.now }
    ensures { Shapes.as_point result ≡ Trees.point_from numbers.now i }
{
    Vec3 {
        x: numbers[i],
        y: numbers[i + 1],
        z: numbers[i + 2],
    }
}

// The box of the node, its numbers as they are.
pub fn node_box(boxes: &[f32], node: usize) -> Box3
    requires { 6 * node + 6 ≤ length boxes.now }
    ensures { Shapes.as_box result ≡ Trees.node_box boxes.now node }
{
    Box3 {
        min: point_from(boxes, 6 * node),
        max: point_from(boxes, 6 * node + 3),
    }
}
