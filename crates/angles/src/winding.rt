// The winding number of a triangle list about a point, and about each point of a list.
ghost use Rattle.std.specs.Prelude.{◌≡◌, ◌≤◌, length};
ghost use Rattle.std.specs.Float.{binary32};
ghost use Rattle.shapes.specs.Values as Shapes;
ghost use Rattle.lists.specs.Values as Values;
ghost use Rattle.spec_lists.specs.Reading as Reading;
ghost use Rattle.spec_angles.specs.Windings as Windings;
ghost use Rattle.angles.specs.Windings.{Written};

use crate::arc_tangent::{ArcTable, arc_table};
use crate::solid_angle::solid_angle_by;
use lists::reading::{point_at, triangle_at};
use lists::refusal::{Refusal, room_refusal};
use lists::tests::{point_count, points_refusal, triangle_count, triangles_refusal};
use shapes::vec3::Vec3;
use std::f32::consts::PI;

// The sum of the triangles' solid angles, in the order of the list, over 4 * PI, by the lent table of arc tangents.
pub fn winding_number_by(table: &ArcTable, triangles: &[f32], q: Vec3) -> f32
    ensures { result ≡ Windings.winding_about binary32 triangles.now (Shapes.as_point q) }
{
    let mut sum: f32 = 0.0;
    for t in 0..triangle_count(triangles) {
        sum += solid_angle_by(table, triangle_at(triangles, t), q);
    }
    sum / (4.0 * PI)
}

// The winding number about q, with a table of its own.
pub fn winding_number(triangles: &[f32], q: Vec3) -> f32
    ensures { result ≡ Windings.winding_about binary32 triangles.now (Shapes.as_point q) }
{
    let table = arc_table();
    winding_number_by(&table, triangles, q)
}

// Writes what `winding` computes about each point, one number a point, to the front of `out`.
pub fn put_windings<F: Fn(Vec3) -> f32>(points: &[f32], winding: F, out: &mut [f32])
    requires callable { F.IsAlwaysCallable winding }
    requires room { Reading.point_count points.now ≤ length out.old }
    ensures { Written (F.post winding) points.now out.old out.new }
{
    for k in 0..point_count(points) {
        out[k] = winding(point_at(points, 3 * k));
    }
}

// The first of the tests 1 to 4, 6 and 8 that refuses.
fn winding_refusal(triangles: &[f32], points: &[f32], room: usize) -> Result<(), Refusal>
    ensures { Values.as_verdict result ≡ Windings.winding_refusal triangles.now points.now room }
{
    triangles_refusal(triangles)?;
    room_refusal(room, point_count(points))?;
    points_refusal(points)
}

// Writes the winding number of the triangles about each point to the front of `out`, one f32 a point. A refusal changes nothing.
// The table of arc tangents is laid out once for all of them.
pub fn winding(triangles: &[f32], points: &[f32], out: &mut [f32]) -> Result<(), Refusal>
    ensures verdict { Values.as_verdict result ≡ Windings.winding_refusal triangles.now points.now (length out.old) }
    ensures windings { out.new ≡ Windings.after_winding binary32 triangles.now points.now out.old }
{
    winding_refusal(triangles, points, out.len())?;
    let table = arc_table();
    put_windings(points, |p| winding_number_by(&table, triangles, p), out);
    Ok(())
}
