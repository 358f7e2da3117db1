// A box, by its lowest and its highest corner. The source query and the sure query measure a box differently, so both measures stand here.
ghost use Rattle.std.specs.Prelude.{◌≡◌};
ghost use Rattle.std.specs.Float.{binary32};
ghost use Rattle.spec_shapes.specs.Boxes as Boxes;
ghost use Rattle.shapes.specs.Values as Values;

use crate::vec3::Vec3;

#[derive(Clone, Copy)]
pub struct Box3 {
    pub min: Vec3,
    pub max: Vec3,
}

// Where p lies between lo and hi: 0 at lo, 1 at hi. Where hi is not above lo the answer is p - lo.
pub fn offset_on(lo: f32, hi: f32, p: f32) -> f32
    ensures { result ≡ Boxes.offset_on binary32 lo hi p }
{
    let o = p - lo;
    if hi > lo { o / (hi - lo) } else { o }
}

// The sum, and the square of how far `far` is past `near`, if it is past it.
fn with_excess(sum: f32, far: f32, near: f32) -> f32
    ensures { result ≡ Boxes.with_excess binary32 sum far near }
{
    let d = far - near;
    if near < far { sum + d * d } else { sum }
}

// The sum, and the square of how far v is outside lo and hi.
fn with_outside(sum: f32, lo: f32, hi: f32, v: f32) -> f32
    ensures { result ≡ Boxes.with_outside binary32 sum lo hi v }
{
    with_excess(with_excess(sum, lo, v), v, hi)
}

impl Box3 {
    // The box of the two corners.
    pub fn new(min: Vec3, max: Vec3) -> Box3
        ensures { Values.as_box result ≡ record { min = Values.as_point min; max = Values.as_point max } }
    {
        Box3 { min, max }
    }

    // The box that joined with any box gives that box: its lowest corner is the largest finite number, its highest the opposite.
    pub fn empty() -> Box3
        ensures { Values.as_box result ≡ Boxes.empty binary32 }
    {
        Box3 {
            min: Vec3::splat(f32::MAX),
            max: Vec3::splat(f32::MIN),
        }
    }

    // The smallest box around both.
    pub fn union_box(self, b: Box3) -> Box3
        ensures { Values.as_box result ≡ Boxes.union (Values.as_box self) (Values.as_box b) }
    {
        Box3 {
            min: self.min.smallest(b.min),
            max: self.max.largest(b.max),
        }
    }

    // The smallest box around this one and p.
    pub fn union_point(self, p: Vec3) -> Box3
        ensures { Values.as_box result ≡ Boxes.union_point (Values.as_box self) (Values.as_point p) }
    {
        self.union_box(Box3::new(p, p))
    }

    // Half the sum of both corners.
    pub fn centre(self) -> Vec3
        ensures { Values.as_point result ≡ Boxes.centre binary32 (Values.as_box self) }
    {
        self.min.plus(self.max).over(2.0)
    }

    // The size on each axis.
    pub fn sizes(self) -> Vec3
        ensures { Values.as_point result ≡ Boxes.sizes binary32 (Values.as_box self) }
    {
        self.max.minus(self.min)
    }

    // The area of the six faces.
    pub fn area(self) -> f32
        ensures { result ≡ Boxes.area binary32 (Values.as_box self) }
    {
        let d = self.sizes();
        2.0 * (d.x * d.y + d.x * d.z + d.y * d.z)
    }

    // The product of the sizes.
    pub fn volume(self) -> f32
        ensures { result ≡ Boxes.volume binary32 (Values.as_box self) }
    {
        let d = self.sizes();
        d.x * d.y * d.z
    }

    // Where p lies in the box on each axis: 0 at min and 1 at max.
    pub fn offset(self, p: Vec3) -> Vec3
        ensures { Values.as_point result ≡ Boxes.offset binary32 (Values.as_box self) (Values.as_point p) }
    {
        Vec3 {
            x: offset_on(self.min.x, self.max.x, p.x),
            y: offset_on(self.min.y, self.max.y, p.y),
            z: offset_on(self.min.z, self.max.z, p.z),
        }
    }

    // The source's squared distance from p to the box: what p is outside, squared, axis after axis.
    pub fn squared_distance(self, p: Vec3) -> f32
        ensures { result ≡ Boxes.box_squared binary32 (Values.as_box self) (Values.as_point p) }
    {
        let x = with_outside(0.0, self.min.x, self.max.x, p.x);
        let xy = with_outside(x, self.min.y, self.max.y, p.y);
        with_outside(xy, self.min.z, self.max.z, p.z)
    }

    // Whether p lies in the box, its faces included.
    pub fn contains_point(self, p: Vec3) -> bool
        ensures { result ≡ Boxes.contains_point (Values.as_box self) (Values.as_point p) }
    {
        self.min.is_under(p) & p.is_under(self.max)
    }

    // The source's closest point of the box.
    pub fn closest_point(self, p: Vec3) -> Vec3
        ensures { Values.as_point result ≡ Boxes.closest_in_box (Values.as_box self) (Values.as_point p) }
    {
        self.min.largest(p).smallest(self.max)
    }

    // p held into the box: raised to min, then lowered to max. The sure query uses it.
    pub fn hold(self, p: Vec3) -> Vec3
        ensures { Values.as_point result ≡ Boxes.held_in (Values.as_box self) (Values.as_point p) }
    {
        p.largest(self.min).smallest(self.max)
    }

    // The squared distance from p to p held into the box. The sure query skips a box by it.
    pub fn held_squared(self, p: Vec3) -> f32
        ensures { result ≡ Boxes.held_squared binary32 (Values.as_box self) (Values.as_point p) }
    {
        self.hold(p).squared_distance(p)
    }
}
