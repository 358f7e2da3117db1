// The winding numbers about all points: tests 1 to 4, 6 and 8, then four bytes a point.
ghost use Rattle.std.specs.Prelude.{◌≡◌, length};
ghost use Rattle.lists.specs.Values.{as_verdict};
ghost use Rattle.spec_host.specs.PointBytes.{winding_bytes, after_bytes};
ghost use Rattle.spec_host.specs.Requests.{winding_bytes_refusal};

use crate::windings::put_windings;
use angles::arc_tangent::arc_table;
use angles::winding::winding_number_by;
use host_bytes::points::point_bytes_refusal;
use lists::refusal::{Refusal, room_refusal};
use lists::tests::triangles_refusal;

// The first of the tests 1 to 4, 6 and 8 that refuses.
// Kept: (d) beside `angles::winding`: `winding_refusal(triangles, room / 4, count, || point_bytes_refusal(points))` is as long as the row itself.
fn winding_refusal(triangles: &[f32], points: &[u8], room: usize) -> Result<(), Refusal>
    ensures { as_verdict result ≡ winding_bytes_refusal triangles.now points.now room }
{
    triangles_refusal(triangles)?;
    room_refusal(room / 4, points.len() / 12)?;
    point_bytes_refusal(points)
}

// Makes the tests, and writes the winding numbers. A refusal changes nothing. The table of arc tangents is laid out once for all of them.
pub fn winding(triangles: &[f32], points: &[u8], out: &mut [u8]) -> Result<(), Refusal>
    ensures verdict { as_verdict result ≡ winding_bytes_refusal triangles.now points.now (length out.old) }
    ensures windings { out.new ≡ after_bytes (as_verdict result) (winding_bytes triangles.now points.now) out.old }
{
    winding_refusal(triangles, points, out.len())?;
    let table = arc_table();
    put_windings(points, |p| winding_number_by(&table, triangles, p), out);
    Ok(())
}
