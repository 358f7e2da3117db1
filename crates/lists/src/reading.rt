// Reading a list that passed: triangles, their boxes, points. A zero is read as +0, so that results do not depend on its sign.
ghost use Rattle.std.specs.Prelude.{◌≡◌, ◌+◌, ◌≤◌, ◌<◌, ◌*◌, length};
ghost use Rattle.shapes.specs.Values as Shapes;
ghost use Rattle.spec_lists.specs.Reading as Reading;

use floats::plus_zero;
use shapes::box3::Box3;
use shapes::triangle3::Triangle3;
use shapes::vec3::Vec3;

// Number i, with +0 for -0.
fn number_at(numbers: &[f32], i: usize) -> f32
    requires { i < length numbers.now }
    ensures { result ≡ Reading.number_at numbers.now i }
{
    plus_zero(numbers[i])
}

// The point whose coordinates begin at index i.
pub fn point_at(numbers: &[f32], i: usize) -> Vec3
    requires { i + 3 ≤ length numbers.now }
    ensures { Shapes.as_point result ≡ Reading.point_at numbers.now i }
{
    Vec3 {
        x: number_at(numbers, i),
        y: number_at(numbers, i + 1),
        z: number_at(numbers, i + 2),
    }
}

// Triangle t of the list.
pub fn triangle_at(triangles: &[f32], t: usize) -> Triangle3
    requires { 9 * t + 9 ≤ length triangles.now }
    ensures { Shapes.as_triangle result ≡ Reading.triangle_at triangles.now t }
{
    let first = 9 * t;
    Triangle3 {
        a: point_at(triangles, first),
        b: point_at(triangles, first + 3),
        c: point_at(triangles, first + 6),
    }
}

// The box of triangle t.
pub fn box_at(triangles: &[f32], t: usize) -> Box3
    requires { 9 * t + 9 ≤ length triangles.now }
    ensures { Shapes.as_box result ≡ Reading.box_at triangles.now t }
{
    triangle_at(triangles, t).bbox()
}
