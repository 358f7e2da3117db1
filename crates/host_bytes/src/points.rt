// Points as bytes, twelve a point: which bytes are refused, and how a point is read.
ghost use Rattle.std.specs.Prelude.{◌≡◌, ◌+◌, ◌*◌, ◌≤◌, length, get_or};
ghost use Rattle.std.specs.Float.{nan};
ghost use Rattle.shapes.specs.Values.{as_point};
ghost use Rattle.spec_lists.specs.Reading.{point_at};
ghost use Rattle.lists.specs.Values.{as_verdict};
ghost use Rattle.spec_host.specs.PointBytes.{numbers_of, point_bytes_refusal};

use floats::plus_zero;
use lists::refusal::{Refusal, refused_if};
use records::coordinates::first_bad_in;
use records::entries::f32_at;
use shapes::vec3::Vec3;

// Number i of the bytes.
fn number_in(bytes: &[u8], i: usize) -> f32
    requires { 4 * i + 4 ≤ length bytes.now }
    ensures { result ≡ get_or (numbers_of bytes.now) i nan }
{
    f32_at(bytes, 4 * i)
}

// 8: the bytes are no whole points, or a number is no coordinate.
pub fn point_bytes_refusal(bytes: &[u8]) -> Result<(), Refusal>
    ensures { as_verdict result ≡ point_bytes_refusal bytes.now }
{
    refused_if(bytes.len() % 12 != 0, Refusal::BadPoint(bytes.len()))?;
    let count = bytes.len() / 4;
    let at = first_bad_in(bytes, 0, count);
    refused_if(at < count, Refusal::BadPoint(at))
}

// Point k of the bytes.
pub fn point_in(bytes: &[u8], k: usize) -> Vec3
    requires { 12 * k + 12 ≤ length bytes.now }
    ensures { as_point result ≡ point_at (numbers_of bytes.now) (3 * k) }
{
    let first = 3 * k;
    Vec3 {
        x: plus_zero(number_in(bytes, first)),
        y: plus_zero(number_in(bytes, first + 1)),
        z: plus_zero(number_in(bytes, first + 2)),
    }
}
