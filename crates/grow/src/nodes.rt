// Writes the nodes of a tree to the lent lists: three links and six box numbers each.
ghost use Rattle.std.specs.Prelude.{◌≡◌, [], ◌∷◌, ◌+◌, ◌*◌, ◌≤◌, ◌<◌, length};
ghost use Rattle.shapes.specs.Values as Shapes;
ghost use Rattle.spec_tables.specs.Tables.{overwrite};
ghost use Rattle.spec_tree.specs.Trees as Trees;
ghost use Rattle.spec_splits.specs.Splits.{box_in};
ghost use Rattle.spec_build.specs.Growing.{LeafNeeds, BranchNeeds, BranchPut, Written};

use crate::tables::put_box;
use shapes::box3::Box3;
use splits::table::union_of;

// A subtree that was grown: its root, how many levels it has, and its box.
#[derive(Clone, Copy)]
pub struct Grown {
    pub root: usize,
    pub levels: usize,
    pub bounds: Box3,
}

// Kept: (c) `links` and `boxes` apart: of a struct of `&mut` slices a caller learns nothing of what stands behind it.

// What a node is, by the number that says so in its first link.
#[derive(Clone, Copy, PartialEq, Eq)]
pub enum Kind {
    Leaf = 1,
    Branch = 2,
}

// Writes the number of a kind and the two links of a node.
pub fn put_links(links: &mut [u32], node: usize, kind: u32, left: u32, right: u32)
    requires { 3 * node + 3 ≤ length links.old }
    ensures { links.new ≡ overwrite (3 * node) (kind ∷ left ∷ right ∷ []) links.old }
{
    links[3 * node..3 * node + 3].copy_from_slice(&[kind, left, right]);
}

// Writes a leaf over the slice, which begins at this entry of the order list, as node `node`.
pub fn put_leaf(
    bounds: &[f32],
    slice: &[u32],
    entry: usize,
    links: &mut [u32],
    boxes: &mut [f32],
    node: usize,
) -> Grown
    requires { LeafNeeds bounds.now slice.now entry links.old boxes.old node }
    ensures { Written (box_in bounds.now) (Trees.leaf slice.now) entry node links.old links.new
        boxes.old boxes.new result.root result.levels (Shapes.as_box result.bounds) }
{
    let over = union_of(bounds, slice);
    put_links(
        links,
        node,
        Kind::Leaf as u32,
        entry as u32,
        (entry + slice.len()) as u32,
    );
    put_box(boxes, node, over);
    Grown {
        root: node,
        levels: 1,
        bounds: over,
    }
}

// Writes a branch behind its two subtrees.
pub fn put_branch(left: Grown, right: Grown, links: &mut [u32], boxes: &mut [f32]) -> Grown
    requires { BranchNeeds left.root left.levels right.root right.levels links.old boxes.old }
    ensures { BranchPut left.root left.levels (Shapes.as_box left.bounds) right.root right.levels (Shapes.as_box right.bounds)
        links.old links.new boxes.old boxes.new result.root result.levels (Shapes.as_box result.bounds) }
{
    let node = right.root + 1;
    let over = left.bounds.union_box(right.bounds);
    put_links(
        links,
        node,
        Kind::Branch as u32,
        left.root as u32,
        right.root as u32,
    );
    put_box(boxes, node, over);
    Grown {
        root: node,
        levels: left.levels.max(right.levels) + 1,
        bounds: over,
    }
}
