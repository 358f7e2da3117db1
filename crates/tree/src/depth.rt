// 74: the first node that is too deep; and the depth of a tree, which is the number of its levels, 1 for a lone leaf.
ghost use Rattle.std.specs.Prelude.{◌≡◌, ◌-◌, ◌<◌};
ghost use Rattle.lists.specs.Values as Verdicts;
ghost use Rattle.spec_tree.specs.Depth as Depth;
ghost use Rattle.spec_tree.specs.Reasons as Reasons;
ghost use Rattle.spec_tree.specs.Ways as Ways;

use crate::listing::first_of;
use crate::nodes::{kind_at, left_at, right_at};
use lists::limits;
use lists::refusal::{Refusal, refused_if};

// The first node more than `levels` levels down in the listing that ends with this node, the next node where there is none.
fn first_deep(links: &[u32], levels: usize, node: usize) -> usize
    requires { Depth.Descends links.now node }
    ensures { result ≡ Ways.first_deep links.now levels node }
{
    if levels == 0 {
        return first_of(links, node);
    }
    if kind_at(links, node) != 2 {
        return node + 1;
    }
    let left = left_at(links, node);
    let in_left = first_deep(links, levels - 1, left);
    if in_left <= left {
        return in_left;
    }
    let right = right_at(links, node);
    let in_right = first_deep(links, levels - 1, right);
    if in_right <= right {
        return in_right;
    }
    node + 1
}

// 74: at the first node that is deeper than allowed.
pub fn depth_refusal(links: &[u32], nodes: usize) -> Result<(), Refusal>
    requires { Ways.OneTree links.now nodes }
    ensures { Verdicts.as_verdict result ≡ Reasons.depth_refusal links.now nodes }
{
    let place = first_deep(links, limits::DEEPEST, nodes - 1);
    refused_if(place < nodes, Refusal::TooDeep(place))
}

// The levels from this node down, of which at most `most` are looked at.
fn depth_at(links: &[u32], most: usize, node: usize) -> usize
    requires { Depth.Descends links.now node }
    ensures { result ≡ Depth.depth_at links.now most node }
{
    if most == 0 {
        return 0;
    }
    if kind_at(links, node) != 2 {
        return 1;
    }
    let left = depth_at(links, most - 1, left_at(links, node));
    let right = depth_at(links, most - 1, right_at(links, node));
    left.max(right) + 1
}

// The depth of a tree that the check accepted.
pub fn depth_of(links: &[u32], nodes: usize) -> usize
    requires some { 0 < nodes }
    requires descends { Depth.Descends links.now (nodes - 1) }
    ensures { result ≡ Depth.depth_of links.now nodes }
{
    depth_at(links, limits::DEEPEST, nodes - 1)
}
