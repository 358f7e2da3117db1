// The source query's walk: the tests and the order of visits of the Rust, the right child first, with its leaf range repaired.
ghost use Rattle.std.specs.Prelude.{◌≡◌, ◌+◌, ◌*◌, ◌≤◌, length};
ghost use Rattle.std.specs.Float.{binary32};
ghost use Rattle.shapes.specs.Values as Shapes;
ghost use Rattle.spec_search.specs.Walk as Walk;
ghost use Rattle.spec_search.specs.Source as Source;
ghost use Rattle.spec_search.specs.Safe as Safe;
ghost use Rattle.spec_search.specs.Calls as Calls;
ghost use Rattle.walks.specs.declared.answer.Measures.TheVariants.{Computed};
ghost use Rattle.walks.specs.Places as Kept;
ghost use Rattle.walks.specs.Values as Values;

use crate::answer::{Measures, Probe, Sought};
use crate::leaf::measure_leaf;
use crate::places::{BEST, Places};
use lists::drawing::Drawing;
use lists::limits;
use tree::nodes::{Node, node_at, node_box};

// Whether a child is entered: its box holds the point, or is nearer than the limit.
#[tactic(auto, unfolding(spec_search::specs::Source::enters))]
fn does_enter(boxes: &[f32], node: usize, probe: &Probe) -> bool
    requires { 6 * node + 6 ≤ length boxes.now }
    ensures { result ≡ Source.enters binary32 boxes.now (Shapes.as_point probe.now.point) probe.now.limit node }
{
    let over = node_box(boxes, node);
    over.contains_point(probe.point) | (over.squared_distance(probe.point) < probe.limit)
}

// Looks at a node, whatever its box. `depth` levels of branches remain to open. Answers how many triangles were measured in all.
#[cycle(look_look_if_entered)]
pub fn look(
    drawing: &Drawing,
    probe: &Probe,
    depth: usize,
    node: usize,
    measured: usize,
    places: &mut Places,
) -> usize
    requires { Safe.NodeSafe drawing.now.triangles.now drawing.now.order.now drawing.now.links.now drawing.now.boxes.now
        depth node measured }
    ensures { Kept.Reached Computed places.new.best places.new.which result (Kept.most_of places.old.which)
        (Walk.root_walk (Source.source_search binary32 drawing.now.triangles.now drawing.now.boxes.now (Shapes.as_point probe.now.point)
        probe.now.limit) drawing.now.order.now drawing.now.links.now depth node
        (Kept.sought_of Computed places.old.best places.old.which measured)) }
{
    match node_at(drawing.links, node) {
        Node::Leaf { first, last } => measure_leaf(
            drawing,
            first,
            last,
            probe,
            Measures::Computed,
            measured,
            places,
        ),
        Node::Branch { left, right } => {
            let below = depth - 1;
            let then = look_if_entered(drawing, probe, below, right, measured, places);
            look_if_entered(drawing, probe, below, left, then, places)
        }
    }
}

// Looks at a child if it is entered.
#[cycle(look_look_if_entered)]
pub fn look_if_entered(
    drawing: &Drawing,
    probe: &Probe,
    depth: usize,
    node: usize,
    measured: usize,
    places: &mut Places,
) -> usize
    requires { Safe.NodeSafe drawing.now.triangles.now drawing.now.order.now drawing.now.links.now drawing.now.boxes.now
        depth node measured }
    ensures { Kept.Reached Computed places.new.best places.new.which result (Kept.most_of places.old.which)
        (Walk.node_walk (Source.source_search binary32 drawing.now.triangles.now drawing.now.boxes.now (Shapes.as_point probe.now.point)
        probe.now.limit) drawing.now.order.now drawing.now.links.now depth node
        (Kept.sought_of Computed places.old.best places.old.which measured)) }
{
    if does_enter(drawing.boxes, node, probe) {
        return look(drawing, probe, depth, node, measured, places);
    }
    measured
}

// The whole walk from the root, which is the last node.
pub fn search(drawing: &Drawing, probe: Probe) -> Sought
    requires { Calls.Searchable drawing.now.triangles.now drawing.now.order.now drawing.now.links.now drawing.now.boxes.now
        drawing.now.nodes }
    ensures { Values.as_sought result
        ≡ Source.source_walk binary32 drawing.now.triangles.now drawing.now.order.now drawing.now.links.now drawing.now.boxes.now
        drawing.now.nodes (Shapes.as_point probe.point) probe.limit }
{
    let root = drawing.nodes - 1;
    let mut places = Places {
        best: [f32::INFINITY; BEST],
        ..Places::new()
    };
    let measured = look(drawing, &probe, limits::DEEPEST - 1, root, 0, &mut places);
    let best = places.answer();
    Sought { best, measured }
}
