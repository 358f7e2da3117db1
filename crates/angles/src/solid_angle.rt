// The solid angle of a triangle as seen from a point.
ghost use Rattle.std.specs.Prelude.{◌≡◌};
ghost use Rattle.std.specs.Float.{binary32};
ghost use Rattle.shapes.specs.Values as Values;
ghost use Rattle.spec_angles.specs.Winding as Winding;

use crate::arc_tangent::{ArcTable, angle_by, arc_table};
use crate::root::root_or_nan;
use shapes::triangle3::Triangle3;
use shapes::vec3::Vec3;

// The length of a vector.
pub fn norm_of(a: Vec3) -> f32
    ensures { result ≡ Winding.norm binary32 (Values.as_point a) }
{
    root_or_nan(a.dot(a))
}

// The triangle with q as the origin.
fn seen_from(q: Vec3, t: Triangle3) -> Triangle3
    ensures { Values.as_triangle result ≡ Winding.seen_from binary32 (Values.as_point q) (Values.as_triangle t) }
{
    Triangle3 {
        a: t.a.minus(q),
        b: t.b.minus(q),
        c: t.c.minus(q),
    }
}

// The numerator of the tangent of half the angle, for corners of length 1.
fn numerator_of(t: Triangle3) -> f32
    ensures { result ≡ Winding.numerator binary32 (Values.as_triangle t) }
{
    t.a.dot(t.b.minus(t.a).cross(t.c.minus(t.a)))
}

// The denominator of the tangent of half the angle, for corners of length 1.
fn denominator_of(t: Triangle3) -> f32
    ensures { result ≡ Winding.denominator binary32 (Values.as_triangle t) }
{
    1.0 + t.a.dot(t.b) + t.a.dot(t.c) + t.b.dot(t.c)
}

// The solid angle, from the origin, of a triangle whose corners have length 1.
fn unit_angle(table: &ArcTable, t: Triangle3) -> f32
    ensures { result ≡ Winding.unit_angle binary32 (Values.as_triangle t) }
{
    let numerator = numerator_of(t);
    if numerator == 0.0 {
        return 0.0;
    }
    angle_by(table, numerator, denominator_of(t)) * 2.0
}

// The solid angle of any triangle from the origin.
fn origin_angle(table: &ArcTable, t: Triangle3) -> f32
    ensures { result ≡ Winding.origin_angle binary32 (Values.as_triangle t) }
{
    let a = norm_of(t.a);
    let b = norm_of(t.b);
    let c = norm_of(t.c);
    if (a == 0.0) | (b == 0.0) | (c == 0.0) {
        return 0.0;
    }
    unit_angle(
        table,
        Triangle3 {
            a: t.a.over(a),
            b: t.b.over(b),
            c: t.c.over(c),
        },
    )
}

// The solid angle of the triangle from q, by the lent table of arc tangents.
pub fn solid_angle_by(table: &ArcTable, t: Triangle3, q: Vec3) -> f32
    ensures { result ≡ Winding.solid_angle binary32 (Values.as_triangle t) (Values.as_point q) }
{
    origin_angle(table, seen_from(q, t))
}

// The solid angle of the triangle from q, with a table of its own.
pub fn solid_angle(t: Triangle3, q: Vec3) -> f32
    ensures { result ≡ Winding.solid_angle binary32 (Values.as_triangle t) (Values.as_point q) }
{
    let table = arc_table();
    solid_angle_by(&table, t, q)
}
