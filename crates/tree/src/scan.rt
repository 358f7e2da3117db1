// 73 to 75 in one loop over the nodes: each is tested for the listing and then, as long as no box differed, for its box, while its links are at hand.
// A box that differs is told only when the whole listing and the depth are right.
ghost use Rattle.std.specs.Prelude.{[], ◌∷◌, ◌≡◌};
ghost use Rattle.lists.specs.Values as Verdicts;
ghost use Rattle.spec_lists.specs.Reading as Reading;
ghost use Rattle.spec_lists.specs.Refusals as Refusals;
ghost use Rattle.spec_tree.specs.Reasons as Reasons;
ghost use Rattle.tree.specs.Needs as Needs;

use crate::boxes::first_unlike;
use crate::depth::depth_refusal;
use crate::listing::{end_refusal, entry_after, goes_on};
use lists::drawing::Drawing;
use lists::refusal::{Refusal, refused_if};

// The first of 73 to 75 that refuses, over an order list and a count of nodes that passed.
pub fn nodes_refusal(drawing: &Drawing, n: usize) -> Result<(), Refusal>
    requires { Needs.Scannable drawing.now.triangles.now drawing.now.order.now drawing.now.links.now
        drawing.now.boxes.now n drawing.now.nodes }
    ensures { Verdicts.as_verdict result ≡ Refusals.first_refusal (Reasons.listing_refusal n drawing.now.links.now drawing.now.nodes
        ∷ Reasons.depth_refusal drawing.now.links.now drawing.now.nodes
        ∷ Reasons.box_refusal (Reading.box_at drawing.now.triangles.now) drawing.now.order.now
        drawing.now.links.now drawing.now.boxes.now drawing.now.nodes ∷ []) }
{
    let links = drawing.links;
    let nodes = drawing.nodes;
    let mut entry = 0;
    let mut unlike = 0;
    for node in 0..nodes {
        if !goes_on(n, links, node, entry) {
            return Err(Refusal::BadListing(node));
        }
        entry = entry_after(links, node, entry);
        unlike = first_unlike(drawing, node, unlike);
    }
    end_refusal(n, links, nodes, entry)?;
    depth_refusal(links, nodes)?;
    refused_if(unlike < nodes, Refusal::BadBox(unlike))
}
