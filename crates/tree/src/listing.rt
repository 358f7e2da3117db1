// 73 node by node: whether the left-right-self listing of one tree, whose leaves cover the order list, goes on, and whether it is whole at the end.
// No stack of roots is kept: the tree that ends just before a node begins with the leaf down its left children, and the tree before it ends there.
ghost use Rattle.std.specs.Prelude.{◌≡◌, ◌-◌, ◌*◌, ◌+◌, ◌≤◌, ◌<◌, length};
ghost use Rattle.lists.specs.Values as Verdicts;
ghost use Rattle.spec_tree.specs.Depth as Depth;
ghost use Rattle.spec_tree.specs.Reasons as Reasons;
ghost use Rattle.spec_tree.specs.Ways as Ways;
ghost use Rattle.tree.specs.Needs as Needs;

use crate::nodes::{is_left_before, is_right_before, kind_at, left_at, right_at};
use lists::refusal::{Refusal, refused_if};

// The first node of the listing that ends with this one: down the left children.
pub fn first_of(links: &[u32], node: usize) -> usize
    requires { Depth.Descends links.now node }
    ensures { result ≡ Ways.first_of links.now node node }
{
    let mut first = node;
    while kind_at(links, first) == 2 {
        first = left_at(links, first);
    }
    first
}

// A leaf goes on from the entry that is reached, is not empty and does not end beyond n.
fn leaf_goes_on(n: usize, links: &[u32], node: usize, entry: usize) -> bool
    requires { 3 * node + 3 ≤ length links.now }
    ensures { result ≡ Reasons.leaf_goes_on n links.now node entry }
{
    let last = right_at(links, node);
    (left_at(links, node) == entry) & (entry < last) & (last <= n)
}

// A branch has the tree that ends just before it for its right one, and the tree that ends just before that for its left one.
fn branch_goes_on(links: &[u32], node: usize) -> bool
    requires there { 3 * node + 3 ≤ length links.now }
    requires before { Needs.Before links.now node }
    ensures { result ≡ Ways.branch_goes_on links.now node }
{
    if node == 0 {
        return false;
    }
    if !is_right_before(links, node, node) {
        return false;
    }
    is_left_before(links, node, first_of(links, node - 1))
}

// Whether the listing and the cover go on with this node, by its kind.
// Kept: (a) kinds by their numbers, here and in `depth`: a list that is checked has any number there, and `Ways.goes_on` tells 1, 2 and the others apart.
pub fn goes_on(n: usize, links: &[u32], node: usize, entry: usize) -> bool
    requires there { 3 * node + 3 ≤ length links.now }
    requires before { Needs.Before links.now node }
    ensures { result ≡ Ways.goes_on n links.now node entry }
{
    let kind = kind_at(links, node);
    if kind == 1 {
        return leaf_goes_on(n, links, node, entry);
    }
    if kind != 2 {
        return false;
    }
    branch_goes_on(links, node)
}

// The entry that is reached behind the node: a leaf's end.
pub fn entry_after(links: &[u32], node: usize, entry: usize) -> usize
    requires { 3 * node + 3 ≤ length links.now }
    ensures { result ≡ Ways.entry_after links.now node entry }
{
    if kind_at(links, node) == 1 {
        return right_at(links, node);
    }
    entry
}

// 73 at the end: at the root where more than one tree is left or the cover ends short of n.
pub fn end_refusal(n: usize, links: &[u32], nodes: usize, entry: usize) -> Result<(), Refusal>
    requires some { 0 < nodes }
    requires there { 3 * nodes ≤ length links.now }
    requires scanned { Ways.Scanned n links.now nodes entry }
    ensures { Verdicts.as_verdict result ≡ Reasons.listing_refusal n links.now nodes }
{
    let root = nodes - 1;
    let whole = (first_of(links, root) == 0) & (entry == n);
    refused_if(!whole, Refusal::BadListing(root))
}
