// The tests of the two calls, in the order of their numbers.
ghost use Rattle.std.specs.Prelude.{◌≡◌, length};
ghost use Rattle.lists.specs.Values as Verdicts;
ghost use Rattle.spec_dipoles.specs.Calls as Calls;

use lists::drawing::Drawing;
use lists::refusal::{Refusal, room_refusal};
use lists::tests::{point_count, points_refusal, scale_refusal, triangles_refusal};
use tree::calls::tree_refusal;

// The first of the tests 1 to 4, 6 and 71 to 75 that refuses.
pub fn sums_refusal(drawing: &Drawing, room: usize) -> Result<(), Refusal>
    ensures { Verdicts.as_verdict result
        ≡ Calls.sums_refusal drawing.now.triangles.now drawing.now.order.now drawing.now.links.now
        drawing.now.boxes.now drawing.now.nodes room }
{
    triangles_refusal(drawing.triangles)?;
    room_refusal(room / 16, drawing.nodes)?;
    tree_refusal(drawing)
}

// The first of the tests 1 to 4, 6, 71 to 75, 8 and 14 that refuses.
pub fn fast_refusal(
    drawing: &Drawing,
    sums: &[f32],
    points: &[f32],
    accuracy: f32,
    room: usize,
) -> Result<(), Refusal>
    ensures { Verdicts.as_verdict result
        ≡ Calls.fast_refusal drawing.now.triangles.now drawing.now.order.now drawing.now.links.now
        drawing.now.boxes.now drawing.now.nodes sums.now points.now accuracy room }
{
    triangles_refusal(drawing.triangles)?;
    room_refusal(room, point_count(points))?;
    room_refusal(sums.len() / 16, drawing.nodes)?;
    tree_refusal(drawing)?;
    points_refusal(points)?;
    scale_refusal(accuracy)
}
