// The far term of a dipole, and when it is used.
ghost use Rattle.std.specs.Prelude.{◌≡◌};
ghost use Rattle.std.specs.Float.{binary32};
ghost use Rattle.shapes.specs.Values as Shapes;
ghost use Rattle.spec_dipoles.specs.Far as Far;
ghost use Rattle.dipoles.specs.Values as Values;

use crate::dipole::Dipole;
use crate::matrix3::{Matrix3, identity_times, outer};
use angles::root::root_or_nan;
use shapes::vec3::Vec3;
use std::f32::consts::PI;

// What the second order is multiplied with: the identity over 4 PI r^3, less 3 r r transposed over 4 PI r^5.
fn second_by(r: Vec3, inverse: f32, r5: f32) -> Matrix3
    ensures { Values.as_matrix result ≡ Far.second_by binary32 (Shapes.as_point r) inverse r5 }
{
    let denominator = 4.0 * PI * r5;
    identity_times(inverse).minus(outer(r.scale(3.0), r).over(denominator))
}

// The far term by r, its square and its length.
fn term_by(d: Dipole, r: Vec3, r2: f32, r1: f32) -> f32
    ensures { result ≡ Far.term_by binary32 (Values.as_dipole d) (Shapes.as_point r) r2 r1 }
{
    let r3 = r2 * r1;
    let inverse = 1.0 / (4.0 * PI * r3);
    d.first.dot(r.scale(inverse)) + d.second.dot(second_by(r, inverse, r3 * r2))
}

// The far term where q is far, else a NaN. The length is that of the difference either way round, so one root serves the test and the term.
pub fn term_or_nan(d: Dipole, accuracy: f32, q: Vec3) -> f32
    ensures { result ≡ Far.term_or_nan binary32 (Values.as_dipole d) accuracy (Shapes.as_point q) }
{
    let r = d.centre.minus(q);
    let r2 = r.dot(r);
    let r1 = root_or_nan(r2);
    if d.radius * accuracy < r1 {
        return term_by(d, r, r2, r1);
    }
    f32::NAN
}
