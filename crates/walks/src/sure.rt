// The walk for the nearest few, of which the sure query asks for one: the nearer child first. A box is skipped where it does not count or is above
// the last place. The walk knows no rule, and keeps what is strictly below the limit. All places start as markers, hits at the limit squared under a
// number that no triangle has: whatever counts goes before them. So a box costs no test of the rule, nor of how many places are filled.
// The drawing is lent by one reference: that is one word, handed on as it is, where a list's own reference is copied at each call.
ghost use Rattle.std.specs.Prelude.{◌≡◌, true, false, ◌+◌, ◌*◌, ◌≤◌, length};
ghost use Rattle.std.specs.Float.{binary32, inf};
ghost use Rattle.std.specs.Float.Ieee.{lt};
ghost use Rattle.shapes.specs.Values as Shapes;
ghost use Rattle.spec_search.specs.Walk as Walk;
ghost use Rattle.spec_search.specs.Rules as Rules;
ghost use Rattle.spec_search.specs.Few as Few;
ghost use Rattle.spec_search.specs.Marked as Marked;
ghost use Rattle.spec_search.specs.Safe as Safe;
ghost use Rattle.spec_search.specs.Calls as Calls;
ghost use Rattle.walks.specs.declared.answer.Measures.TheVariants.{Held};
ghost use Rattle.walks.specs.Places as Kept;
ghost use Rattle.walks.specs.Values as Values;

use crate::answer::{Measures, Probe};
use crate::leaf::measure_leaf;
use crate::places::Places;
use lists::drawing::Drawing;
use lists::limits;
use tree::nodes::{Node, node_at, node_box};

// The squared distance from the point to a node's box.
#[tactic(auto, unfolding(spec_search::specs::Few::node_squared))]
fn node_squared(boxes: &[f32], node: usize, probe: &Probe) -> f32
    requires { 6 * node + 6 ≤ length boxes.now }
    ensures { result ≡ Few.node_squared binary32 boxes.now (Shapes.as_point probe.now.point) node }
{
    node_box(boxes, node).held_squared(probe.point)
}

// Looks at a node whose box is at this squared distance. `depth` levels of branches remain to open. Answers how many triangles were measured in all.
#[cycle(node_walk_pair_walk)]
pub fn node_walk(
    drawing: &Drawing,
    probe: &Probe,
    depth: usize,
    node: usize,
    squared: f32,
    measured: usize,
    places: &mut Places,
) -> usize
    requires node_safe { Safe.NodeSafe drawing.now.triangles.now drawing.now.order.now drawing.now.links.now drawing.now.boxes.now
        depth node measured }
    requires squared_value { squared ≡ Few.node_squared binary32 drawing.now.boxes.now (Shapes.as_point probe.now.point) node }
    requires sound { Kept.Sound places.old.best places.old.which }
    ensures { Kept.Reached Held places.new.best places.new.which result (Kept.most_of places.old.which)
        (Walk.node_walk (Few.few_search binary32 drawing.now.triangles.now drawing.now.boxes.now (Shapes.as_point probe.now.point)
        (Kept.most_of places.old.which) (Marked.below probe.now.limit)) drawing.now.order.now drawing.now.links.now
        depth node (Kept.sought_of Held places.old.best places.old.which measured)) }
{
    if places.is_skipped(probe.limit, squared) {
        return measured;
    }
    match node_at(drawing.links, node) {
        Node::Leaf { first, last } => measure_leaf(
            drawing,
            first,
            last,
            probe,
            Measures::Held,
            measured,
            places,
        ),
        Node::Branch { left, right } => pair_walk(
            drawing,
            probe,
            depth - 1,
            left,
            right,
            measured,
            places,
        ),
    }
}

// Looks at two children, the nearer box first and the left one among equals. Each box is measured here, once, and its squared distance handed down.
// Mostly the farther box is skipped before the nearer child is walked, and stays so, since what is kept only comes nearer.
// Then the walk of the nearer child is a last step, which needs no frame of its own.
#[cycle(node_walk_pair_walk)]
pub fn pair_walk(
    drawing: &Drawing,
    probe: &Probe,
    depth: usize,
    left: usize,
    right: usize,
    measured: usize,
    places: &mut Places,
) -> usize
    requires pair_safe { Safe.PairSafe drawing.now.triangles.now drawing.now.order.now drawing.now.links.now drawing.now.boxes.now
        depth left right measured }
    requires sound { Kept.Sound places.old.best places.old.which }
    ensures { Kept.Reached Held places.new.best places.new.which result (Kept.most_of places.old.which)
        (Walk.pair_walk (Few.few_search binary32 drawing.now.triangles.now drawing.now.boxes.now (Shapes.as_point probe.now.point)
        (Kept.most_of places.old.which) (Marked.below probe.now.limit)) drawing.now.order.now drawing.now.links.now
        depth left right (Kept.sought_of Held places.old.best places.old.which measured)) }
{
    let to_left = node_squared(drawing.boxes, left, probe);
    let to_right = node_squared(drawing.boxes, right, probe);
    if to_right < to_left {
        if places.is_skipped(probe.limit, to_left) {
            return node_walk(drawing, probe, depth, right, to_right, measured, places);
        }
        let then = node_walk(drawing, probe, depth, right, to_right, measured, places);
        return node_walk(drawing, probe, depth, left, to_left, then, places);
    }
    if places.is_skipped(probe.limit, to_right) {
        return node_walk(drawing, probe, depth, left, to_left, measured, places);
    }
    let then = node_walk(drawing, probe, depth, left, to_left, measured, places);
    node_walk(drawing, probe, depth, right, to_right, then, places)
}

// The limit squared of the walk: what it keeps is strictly below.
fn walk_limit(rule: u32, limit: f32) -> f32
    ensures { result ≡ Marked.walk_limit (Rules.rule_of rule) limit }
{
    if rule == 2 {
        return f32::INFINITY;
    }
    limit
}

// The whole walk from the root, which is the last node, by the rule, for so many places. Answers how many triangles were measured.
pub fn search(drawing: &Drawing, probe: Probe, rule: u32, most: usize, places: &mut Places) -> usize
    requires searchable { Calls.Searchable drawing.now.triangles.now drawing.now.order.now drawing.now.links.now drawing.now.boxes.now
        drawing.now.nodes }
    requires limit_finite { lt probe.limit (inf false) ≡ true }
    requires le_most { (1 ≤ most) × (most ≤ Calls.most_few) }
    ensures { Kept.Reached Held places.new.best places.new.which result most (Marked.padded_in most probe.limit
        (Few.few_walk binary32 drawing.now.triangles.now drawing.now.order.now drawing.now.links.now drawing.now.boxes.now
        drawing.now.nodes (Shapes.as_point probe.point) most (record { rule = Rules.rule_of rule; squared = probe.limit }))) }
{
    let root = drawing.nodes - 1;
    let limited = Probe {
        point: probe.point,
        limit: walk_limit(rule, probe.limit),
    };
    let squared = node_squared(drawing.boxes, root, &limited);
    places.start(most, probe.limit);
    node_walk(
        drawing,
        &limited,
        limits::DEEPEST - 1,
        root,
        squared,
        0,
        places,
    )
}
