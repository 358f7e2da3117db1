// 72: whether the count of the nodes can be right, and all of them are there.
ghost use Rattle.std.specs.Prelude.{◌≡◌, ◌≤◌};
ghost use Rattle.lists.specs.Values as Verdicts;
ghost use Rattle.spec_lists.specs.Limits as Limits;
ghost use Rattle.spec_tree.specs.Accepted as Accepted;
ghost use Rattle.spec_tree.specs.Reasons as Reasons;

use lists::refusal::{Refusal, refused_if};

// Whether there is a node, and the lists hold the links and boxes of `nodes` nodes.
fn is_present(links: &[u32], boxes: &[f32], nodes: usize) -> bool
    ensures { result ≡ Accepted.present links.now boxes.now nodes }
{
    if nodes == 0 {
        return false;
    }
    if nodes > links.len() / 3 {
        return false;
    }
    nodes <= boxes.len() / 6
}

// 72: there are not 1 to 2n - 1 nodes, or the lists do not hold them all.
pub fn count_refusal(n: usize, links: &[u32], boxes: &[f32], nodes: usize) -> Result<(), Refusal>
    requires { n ≤ Limits.max_triangles }
    ensures { Verdicts.as_verdict result ≡ Reasons.count_refusal n links.now boxes.now nodes }
{
    let good = is_present(links, boxes, nodes) & (nodes < 2 * n);
    refused_if(!good, Refusal::BadNodeCount)
}
