// Measures the triangles of a leaf one after another, for both walks: the sure one keeps held points, the source's the computed ones. One function for
// both, since the closest point is laid out in the leaf's loop only if it is called from one place.
ghost use Rattle.std.specs.Prelude.{◌≡◌, ◌+◌, ◌-◌, ◌*◌, ◌^◌, ◌≤◌, ◌<◌, length};
ghost use Rattle.std.specs.Float.{binary32};
ghost use Rattle.shapes.specs.Values as Shapes;
ghost use Rattle.spec_lists.specs.Reading as Reading;
ghost use Rattle.spec_tables.specs.Tables as Tables;
ghost use Rattle.spec_tree.specs.Order as Order;
ghost use Rattle.spec_search.specs.Answers as Answers;
ghost use Rattle.spec_search.specs.Walk as Walk;
ghost use Rattle.walks.specs.Places as Kept;
ghost use Rattle.walks.specs.Values as Values;

use crate::answer::{Hit, Measures, Probe};
use crate::places::Places;
use lists::drawing::Drawing;
use lists::reading::triangle_at;
use shapes::triangle3::Spot;
use shapes::vec3::Vec3;

// A triangle's point and its part, with the squared distance from p.
fn hit_at(spot: Spot, p: Vec3, t: u32) -> Hit
    ensures { Values.as_hit result ≡ Answers.hit_at binary32 (Shapes.as_spot spot) (Shapes.as_point p) t }
{
    Hit {
        point: spot.point,
        squared: spot.point.squared_distance(p),
        triangle: t,
        part: u32::from(spot.part),
    }
}

// Measures one triangle and keeps its point where the walk keeps it.
fn measure(triangles: &[f32], t: u32, probe: &Probe, measures: Measures, places: &mut Places)
    requires t_in_bounds { 9 * t + 9 ≤ length triangles.now }
    requires ready { Kept.Ready measures places.old.best places.old.which }
    ensures { Kept.Holds measures places.new.best places.new.which (Kept.most_of places.old.which)
        (Kept.took_by measures binary32 triangles.now (Shapes.as_point probe.now.point) probe.now.limit
        (Kept.most_of places.old.which) t
        (Kept.kept_in measures places.old.best places.old.which)) }
{
    let p = probe.point;
    let triangle = triangle_at(triangles, t as usize);
    let computed = triangle.closest_spot(p);
    // Kept: (b) `Measures` picks the step; with a leaf loop for the source's walk alone the sure query took 1.03 to 1.22 of the time (PERFORMANCE.md).
    match measures {
        Measures::Held => {
            places.offer(probe.limit, hit_at(triangle.held(p, computed), p, t));
        }
        Measures::Computed => {
            places.keep_smaller(hit_at(computed, p, t));
        }
    }
}

// Measures each triangle of a leaf's slice of the order list, and answers how many were measured in all.
fn measure_slice(
    triangles: &[f32],
    slice: &[u32],
    probe: &Probe,
    measures: Measures,
    measured: usize,
    places: &mut Places,
) -> usize
    requires entries_below { Order.EntriesBelow (Reading.triangle_count triangles.now) slice.now }
    requires slice_bound { measured + length slice.now < 2 ^ 64 }
    requires ready { Kept.Ready measures places.old.best places.old.which }
    ensures { Kept.Reached measures places.new.best places.new.which result (Kept.most_of places.old.which)
        (Walk.took_all (Kept.took_by measures binary32 triangles.now (Shapes.as_point probe.now.point) probe.now.limit
        (Kept.most_of places.old.which))
        slice.now (Kept.sought_of measures places.old.best places.old.which measured)) }
{
    for t in slice {
        measure(triangles, *t, probe, measures, places);
    }
    measured + slice.len()
}

// Measures the triangles of the entries from `first` up to `last`, the end not included, and answers how many were measured in all.
pub fn measure_leaf(
    drawing: &Drawing,
    first: usize,
    last: usize,
    probe: &Probe,
    measures: Measures,
    measured: usize,
    places: &mut Places,
) -> usize
    requires entries_below { Order.EntriesBelow (Reading.triangle_count drawing.now.triangles.now) drawing.now.order.now }
    requires first_le_last { (first ≤ last) × (last ≤ length drawing.now.order.now) }
    requires first_bound { measured + (last - first) < 2 ^ 64 }
    requires ready { Kept.Ready measures places.old.best places.old.which }
    ensures { Kept.Reached measures places.new.best places.new.which result (Kept.most_of places.old.which)
        (Walk.took_all (Kept.took_by measures binary32 drawing.now.triangles.now (Shapes.as_point probe.now.point) probe.now.limit
        (Kept.most_of places.old.which))
        (Tables.slice drawing.now.order.now first (last - first)) (Kept.sought_of measures places.old.best places.old.which measured)) }
{
    measure_slice(
        drawing.triangles,
        &drawing.order[first..last],
        probe,
        measures,
        measured,
        places,
    )
}
