// The recursion: a slice of the order list becomes a leaf, or is cut in two and each side grows in its turn.
// The nodes of the left subtree are written first, then those of the right one, then the branch itself.
ghost use Rattle.std.specs.Float.{binary32};
ghost use Rattle.shapes.specs.Values as Shapes;
ghost use Rattle.spec_build.specs.Growing.{Growable, GrownIs};

use crate::nodes::{Grown, put_branch, put_leaf};
use crate::tries::Cutter;

// Kept: (c) `links` and `boxes` flat, as in nodes.rt: of a struct of `&mut` slices a caller learns nothing of what stands behind it.
// Kept: (d) `entry` and `node` flat: `Place { entry: entry + cut, node: left.root + 1 }` is made for a call, and `put_leaf` takes it apart.

// Grows the tree of the slice, which begins at `entry` of the order list, and answers its root, levels and box.
// `levels_remaining` levels remain below this one. The slice is left in the order of the leaves, and the nodes stand in the lists from `node` on.
pub fn grow(
    cutter: &Cutter,
    levels_remaining: usize,
    slice: &mut [u32],
    scratch: &mut [u32],
    entry: usize,
    links: &mut [u32],
    boxes: &mut [f32],
    node: usize,
) -> Grown
    requires { Growable binary32 cutter.now.bounds.now cutter.now.centres.now cutter.now.leaf_minimum levels_remaining
        slice.old scratch.old entry links.old boxes.old node }
    ensures { GrownIs binary32 cutter.now.bounds.now cutter.now.strategy cutter.now.leaf_minimum levels_remaining slice.old slice.new entry
        links.old links.new boxes.old boxes.new node result.root result.levels (Shapes.as_box result.bounds) }
{
    if (levels_remaining == 0) | (slice.len() <= cutter.leaf_minimum) {
        return put_leaf(cutter.bounds, slice, entry, links, boxes, node);
    }
    let Some(cut) = cutter.try_slice(slice, scratch) else {
        return put_leaf(cutter.bounds, slice, entry, links, boxes, node);
    };
    let left = grow(
        cutter,
        levels_remaining - 1,
        &mut slice[..cut],
        scratch,
        entry,
        links,
        boxes,
        node,
    );
    let right = grow(
        cutter,
        levels_remaining - 1,
        &mut slice[cut..],
        scratch,
        entry + cut,
        links,
        boxes,
        left.root + 1,
    );
    put_branch(left, right, links, boxes)
}
