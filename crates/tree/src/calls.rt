// The tree check, 71 to 75 in turn, each over lists that the ones before it let through; and the calls over any lists at all: the check,
// and the depth of the tree that it accepts.
ghost use Rattle.std.specs.Prelude.{◌≡◌, ◌≤◌};
ghost use Rattle.lists.specs.Values as Verdicts;
ghost use Rattle.spec_lists.specs.Limits as Limits;
ghost use Rattle.spec_lists.specs.Reading as Reading;
ghost use Rattle.spec_tree.specs.Depth as Depth;
ghost use Rattle.spec_tree.specs.Refusals as Refusals;
ghost use Rattle.tree.specs.Values as Values;

use crate::count::count_refusal;
use crate::depth::depth_of;
use crate::permutation::order_refusal;
use crate::scan::nodes_refusal;
use lists::drawing::Drawing;
use lists::refusal::Refusal;
use lists::tests::{triangle_count, triangles_refusal};

// The first of 71 to 75 that refuses: the lists are not the listing of a tree over the triangles.
pub fn tree_refusal(drawing: &Drawing) -> Result<(), Refusal>
    requires { Reading.triangle_count drawing.now.triangles.now ≤ Limits.max_triangles }
    ensures { Verdicts.as_verdict result ≡ Refusals.tree_refusal drawing.now.triangles.now drawing.now.order.now
        drawing.now.links.now drawing.now.boxes.now drawing.now.nodes }
{
    let n = triangle_count(drawing.triangles);
    order_refusal(n, drawing.order)?;
    count_refusal(n, drawing.links, drawing.boxes, drawing.nodes)?;
    nodes_refusal(drawing, n)
}

// Tests 1 to 4 and 71 to 75: whether the lists hold a triangle list and a tree over it.
pub fn check(drawing: &Drawing) -> Result<(), Refusal>
    ensures { Verdicts.as_verdict result ≡ Refusals.check_refusal drawing.now.triangles.now drawing.now.order.now
        drawing.now.links.now drawing.now.boxes.now drawing.now.nodes }
{
    triangles_refusal(drawing.triangles)?;
    tree_refusal(drawing)
}

// The number of the tree's levels, 1 for a lone leaf, or the first of the tests 1 to 4 and 71 to 75 that refuses.
pub fn depth(drawing: &Drawing) -> Result<usize, Refusal>
    ensures { Values.as_depth_found result ≡ Depth.depth_answer drawing.now.triangles.now drawing.now.order.now
        drawing.now.links.now drawing.now.boxes.now drawing.now.nodes }
{
    match check(drawing) {
        Ok(()) => Ok(depth_of(drawing.links, drawing.nodes)),
        Err(refusal) => Err(refusal),
    }
}
