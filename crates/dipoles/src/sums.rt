// The sums of a leaf's triangles, and those of two children joined.
ghost use Rattle.std.specs.Prelude.{◌≡◌, ◌+◌, ◌*◌, ◌≤◌, length};
ghost use Rattle.std.specs.Float.{binary32};
ghost use Rattle.shapes.specs.Values as Shapes;
ghost use Rattle.spec_lists.specs.Reading as Reading;
ghost use Rattle.spec_tree.specs.Order as Order;
ghost use Rattle.spec_dipoles.specs.Sums as Defined;
ghost use Rattle.dipoles.specs.Values as Values;

use crate::matrix3::{Matrix3, outer, zeros};
use angles::solid_angle::norm_of;
use lists::reading::triangle_at;
use shapes::triangle3::Triangle3;
use shapes::vec3::Vec3;

// Normals times areas; centres times areas, each times its normal transposed; areas; centres times areas.
#[derive(Clone, Copy)]
pub struct Sums {
    pub normal: Vec3,
    pub moments: Matrix3,
    pub area: f32,
    pub centre: Vec3,
}

// (b - a) × (c - a)
fn cross_of(t: Triangle3) -> Vec3
    ensures { Shapes.as_point result ≡ Defined.cross_of binary32 (Shapes.as_triangle t) }
{
    t.b.minus(t.a).cross(t.c.minus(t.a))
}

// a + b + c from the left, over 3.
fn centre_of(t: Triangle3) -> Vec3
    ensures { Shapes.as_point result ≡ Defined.centre_of binary32 (Shapes.as_triangle t) }
{
    t.a.plus(t.b).plus(t.c).over(3.0)
}

// Whether the triangle has a normal: its cross product, squared, is not zero.
fn has_normal(t: Triangle3) -> bool
    ensures { result ≡ Defined.has_normal binary32 (Shapes.as_triangle t) }
{
    let cross = cross_of(t);
    cross.dot(cross) != 0.0
}

impl Sums {
    // The sums with a triangle more.
    fn with_triangle(self, t: Triangle3) -> Sums
        ensures { Values.as_sums result ≡ Defined.with_triangle binary32 (Values.as_sums self) (Shapes.as_triangle t) }
    {
        let cross = cross_of(t);
        let norm = norm_of(cross);
        let normal = cross.over(norm);
        let area = norm * 0.5;
        let weighted = centre_of(t).scale(area);
        Sums {
            normal: self.normal.plus(normal.scale(area)),
            moments: self.moments.plus(outer(weighted, normal)),
            area: self.area + area,
            centre: self.centre.plus(weighted),
        }
    }

    // These plus those of the right child.
    pub fn plus(self, right: Sums) -> Sums
        ensures { Values.as_sums result ≡ Defined.joined_sums binary32 (Values.as_sums self) (Values.as_sums right) }
    {
        Sums {
            normal: self.normal.plus(right.normal),
            moments: self.moments.plus(right.moments),
            area: self.area + right.area,
            centre: self.centre.plus(right.centre),
        }
    }
}

// The sums of no triangle.
fn no_sums() -> Sums
    ensures { Values.as_sums result ≡ Defined.no_sums }
{
    let origin = Vec3::splat(0.0);
    Sums {
        normal: origin,
        moments: zeros(),
        area: 0.0,
        centre: origin,
    }
}

// The sums with the next triangle, which is left out where it has no normal.
fn with_next(triangles: &[f32], sums: Sums, t: u32) -> Sums
    requires { 9 * t + 9 ≤ length triangles.now }
    ensures { Values.as_sums result ≡ Defined.with_next binary32 (Reading.triangle_at triangles.now) (Values.as_sums sums) t }
{
    let triangle = triangle_at(triangles, t as usize);
    if has_normal(triangle) {
        sums.with_triangle(triangle)
    } else {
        sums
    }
}

// The sums of the triangles of a leaf, one after another.
pub fn leaf_sums(triangles: &[f32], slice: &[u32]) -> Sums
    requires { Order.EntriesBelow (Reading.triangle_count triangles.now) slice.now }
    ensures { Values.as_sums result ≡ Defined.leaf_sums binary32 (Reading.triangle_at triangles.now) slice.now }
{
    let mut sums = no_sums();
    for t in slice {
        sums = with_next(triangles, sums, *t);
    }
    sums
}
