// A winding number a point, from whatever computes one.
ghost use Rattle.std.specs.Prelude.{◌*◌, ◌/◌, ◌≤◌, length};
ghost use Rattle.host_ask.specs.Windings.{Written};

use host_bytes::answers::put_winding_bytes;
use host_bytes::points::point_in;
use shapes::vec3::Vec3;

// Writes the winding number about each point, four bytes each, to the front of the bytes.
pub fn put_windings<F: Fn(Vec3) -> f32>(points: &[u8], winding: F, out: &mut [u8])
    requires callable { F.IsAlwaysCallable winding }
    requires room { 4 * (length points.now / 12) ≤ length out.old }
    ensures { Written (F.post winding) points.now out.old out.new }
{
    for k in 0..points.len() / 12 {
        put_winding_bytes(out, 4 * k, winding(point_in(points, k)));
    }
}
