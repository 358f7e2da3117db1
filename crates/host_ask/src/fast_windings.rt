// The winding numbers by dipoles about all points: tests 1 to 4, 6, 71 to 75, 8 and 14, then four bytes a point.
ghost use Rattle.std.specs.Prelude.{◌≡◌, ◌*◌, ◌/◌, ◌≤◌, length};
ghost use Rattle.spec_tables.specs.Tables.{overwrite};
ghost use Rattle.lists.specs.Values.{as_verdict};
ghost use Rattle.spec_dipoles.specs.Stored.{RootIn};
ghost use Rattle.spec_host.specs.PointBytes.{fast_bytes, after_bytes};
ghost use Rattle.spec_host.specs.Requests.{fast_bytes_refusal};

use crate::windings::put_windings;
use angles::arc_tangent::arc_table;
use dipoles::calls::fast_winding_by;
use host_bytes::points::point_bytes_refusal;
use lists::drawing::Drawing;
use lists::refusal::{Refusal, room_refusal};
use lists::tests::{scale_refusal, triangles_refusal};
use tree::calls::tree_refusal;

// The first of the tests 1 to 4, 6, 71 to 75, 8 and 14 that refuses.
// Kept: (d) beside `dipoles::tests`: `fast_refusal(drawing, sums, room / 4, count, accuracy, || point_bytes_refusal(points))` is as long.
fn fast_refusal(
    drawing: &Drawing,
    sums: &[f32],
    points: &[u8],
    accuracy: f32,
    room: usize,
) -> Result<(), Refusal>
    ensures { as_verdict result
        ≡ fast_bytes_refusal drawing.now.triangles.now drawing.now.order.now drawing.now.links.now
        drawing.now.boxes.now drawing.now.nodes sums.now points.now accuracy room }
{
    triangles_refusal(drawing.triangles)?;
    room_refusal(room / 4, points.len() / 12)?;
    room_refusal(sums.len() / 16, drawing.nodes)?;
    tree_refusal(drawing)?;
    point_bytes_refusal(points)?;
    scale_refusal(accuracy)
}

// Writes the winding number about each point to the front of the bytes. The table of arc tangents is laid out once for all of them.
fn put_fast(drawing: &Drawing, sums: &[f32], points: &[u8], accuracy: f32, out: &mut [u8])
    requires there { RootIn drawing.now.triangles.now drawing.now.order.now drawing.now.links.now sums.now drawing.now.nodes }
    requires room { 4 * (length points.now / 12) ≤ length out.old }
    ensures { out.new
        ≡ overwrite 0 (fast_bytes drawing.now.triangles.now drawing.now.order.now drawing.now.links.now drawing.now.nodes
        sums.now accuracy points.now) out.old }
{
    let table = arc_table();
    put_windings(
        points,
        |p| fast_winding_by(&table, drawing, sums, accuracy, p),
        out,
    );
}

// Makes the tests, and writes the winding numbers. A refusal changes nothing.
pub fn fast_winding(
    drawing: &Drawing,
    sums: &[f32],
    points: &[u8],
    accuracy: f32,
    out: &mut [u8],
) -> Result<(), Refusal>
    ensures verdict { as_verdict result
        ≡ fast_bytes_refusal drawing.now.triangles.now drawing.now.order.now drawing.now.links.now
        drawing.now.boxes.now drawing.now.nodes sums.now points.now accuracy (length out.old) }
    ensures windings { out.new
        ≡ after_bytes (as_verdict result) (fast_bytes drawing.now.triangles.now drawing.now.order.now drawing.now.links.now
        drawing.now.nodes sums.now accuracy points.now) out.old }
{
    fast_refusal(drawing, sums, points, accuracy, out.len())?;
    put_fast(drawing, sums, points, accuracy, out);
    Ok(())
}
