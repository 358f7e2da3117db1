// A plane, and the source's test whether it cuts a box. The median split uses it.
ghost use Rattle.std.specs.Prelude.{◌≡◌};
ghost use Rattle.std.specs.Float.{binary32};
ghost use Rattle.spec_shapes.specs.Planes as Planes;
ghost use Rattle.shapes.specs.Values as Values;

use crate::box3::Box3;
use crate::vec3::{Axis, Vec3};

#[derive(Clone, Copy)]
pub struct Plane3 {
    pub normal: Vec3,
    pub distance: f32,
}

// The unit vector of an axis.
pub fn unit_of(axis: Axis) -> Vec3
    ensures { Values.as_point result ≡ Planes.unit (Values.as_axis axis) }
{
    let origin = Vec3::splat(0.0);
    match axis {
        Axis::X => Vec3 { x: 1.0, ..origin },
        Axis::Y => Vec3 { y: 1.0, ..origin },
        Axis::Z => Vec3 { z: 1.0, ..origin },
    }
}

// How far a box with these half sizes reaches from its centre along the normal.
fn reach_of(normal: Vec3, halves: Vec3) -> f32
    ensures { result ≡ Planes.reach binary32 (Values.as_point normal) (Values.as_point halves) }
{
    halves.dot(normal.map(|n| floats::absolute(n)))
}

impl Plane3 {
    // Whether the plane cuts the box or touches it.
    pub fn intersects_box3(self, b: Box3) -> bool
        ensures { result ≡ Planes.meets_box binary32 (Values.as_plane self) (Values.as_box b) }
    {
        let centre = b.centre();
        let reach = reach_of(self.normal, b.max.minus(centre));
        let from_plane = self.normal.dot(centre) - self.distance;
        floats::absolute(from_plane) <= reach
    }
}
