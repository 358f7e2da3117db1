// The dipole of a node: made of its sums, and as sixteen numbers in a lent list.
ghost use Rattle.std.specs.Prelude.{◌≡◌, ◌+◌, ◌*◌, ◌≤◌, length};
ghost use Rattle.std.specs.Float.{binary32};
ghost use Rattle.shapes.specs.Values as Shapes;
ghost use Rattle.spec_tables.specs.Tables as Tables;
ghost use Rattle.spec_dipoles.specs.Sums as Defined;
ghost use Rattle.spec_dipoles.specs.Calls as Calls;
ghost use Rattle.dipoles.specs.Values as Values;

use crate::matrix3::{Matrix3, outer};
use crate::sums::Sums;
use angles::root::root_or_nan;
use floats::max2;
use shapes::box3::Box3;
use shapes::vec3::Vec3;
use tree::nodes::point_from;

// First and second order, about the centre; the radius reaches from there to the farther of the box's two corners.
#[derive(Clone, Copy)]
pub struct Dipole {
    pub first: Vec3,
    pub second: Matrix3,
    pub radius: f32,
    pub centre: Vec3,
}

// The dipole of a node that has this box and these sums. Where the area is zero the centre is no number.
pub fn dipole_of(over: Box3, sums: Sums) -> Dipole
    ensures { Values.as_dipole result ≡ Defined.dipole_of binary32 (Shapes.as_box over) (Values.as_sums sums) }
{
    let centre = sums.centre.over(sums.area);
    let low = over.min.minus(centre);
    let high = over.max.minus(centre);
    Dipole {
        first: sums.normal,
        second: sums.moments.minus(outer(centre, sums.normal)),
        radius: root_or_nan(max2(low.dot(low), high.dot(high))),
        centre,
    }
}

// The nine numbers from index i on.
fn matrix_from(numbers: &[f32], i: usize) -> Matrix3
    requires { i + 9 ≤ length numbers.now }
    ensures { Values.as_matrix result ≡ Calls.matrix_from numbers.now i }
{
    Matrix3 {
        x: point_from(numbers, i),
        y: point_from(numbers, i + 3),
        z: point_from(numbers, i + 6),
    }
}

// The dipole of the node, as it is lent.
pub fn dipole_at(sums: &[f32], node: usize) -> Dipole
    requires { 16 * node + 16 ≤ length sums.now }
    ensures { Values.as_dipole result ≡ Calls.dipole_at sums.now node }
{
    let at = 16 * node;
    Dipole {
        first: point_from(sums, at),
        second: matrix_from(sums, at + 3),
        radius: sums[at + 12],
        centre: point_from(sums, at + 13),
    }
}

// Writes three numbers from index `at` on, and answers the index behind them.
fn put_point(out: &mut [f32], at: usize, p: Vec3) -> usize
    requires { at + 3 ≤ length out.old }
    ensures { Tables.Put at (Calls.three_of (Shapes.as_point p)) out.old out.new result }
{
    out[at] = p.x;
    out[at + 1] = p.y;
    out[at + 2] = p.z;
    at + 3
}

// Writes nine numbers, by columns, and answers the index behind them.
fn put_matrix(out: &mut [f32], at: usize, m: Matrix3) -> usize
    requires { at + 9 ≤ length out.old }
    ensures { Tables.Put at (Calls.nine_of (Values.as_matrix m)) out.old out.new result }
{
    let second = put_point(out, at, m.x);
    let third = put_point(out, second, m.y);
    put_point(out, third, m.z)
}

// Writes the sixteen numbers of the node.
pub fn put_dipole(out: &mut [f32], node: usize, d: Dipole)
    requires { 16 * node + 16 ≤ length out.old }
    ensures { out.new ≡ Tables.overwrite (16 * node) (Calls.sixteen_of (Values.as_dipole d)) out.old }
{
    let columns = put_point(out, 16 * node, d.first);
    let radius = put_matrix(out, columns, d.second);
    out[radius] = d.radius;
    put_point(out, radius + 1, d.centre);
}
