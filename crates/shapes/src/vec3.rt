// A vector of f32, which is a point too.
ghost use Rattle.std.specs.Prelude.{◌≡◌};
ghost use Rattle.std.specs.Float.{binary32};
ghost use Rattle.spec_shapes.specs.Points as Points;
ghost use Rattle.shapes.specs.Values as Values;

#[derive(Clone, Copy)]
pub enum Axis {
    X,
    Y,
    Z,
}

#[derive(Clone, Copy)]
pub struct Vec3 {
    pub x: f32,
    pub y: f32,
    pub z: f32,
}

impl Vec3 {
    // The vector whose coordinates are all v.
    pub const fn splat(v: f32) -> Vec3
        ensures { result ≡ record { x = v; y = v; z = v } }
    {
        Vec3 { x: v, y: v, z: v }
    }

    // f of both coordinates, on each axis.
    // Kept: (c) callers write `|p, q| floats::min2(p, q)`: for `self.zip(b, floats::min2)` the check finds no contract of a function that is re-exported.
    fn zip<F: Fn(f32, f32) -> f32>(self, b: Vec3, f: F) -> Vec3
        requires { F.IsAlwaysCallable f }
        ensures x { F.post f self.x b.x result.x }
        ensures y { F.post f self.y b.y result.y }
        ensures z { F.post f self.z b.z result.z }
    {
        Vec3 {
            x: f(self.x, b.x),
            y: f(self.y, b.y),
            z: f(self.z, b.z),
        }
    }

    // f of the coordinate, on each axis.
    pub(crate) fn map<F: Fn(f32) -> f32>(self, f: F) -> Vec3
        requires { F.IsAlwaysCallable f }
        ensures x { F.post f self.x result.x }
        ensures y { F.post f self.y result.y }
        ensures z { F.post f self.z result.z }
    {
        Vec3 {
            x: f(self.x),
            y: f(self.y),
            z: f(self.z),
        }
    }

    // The coordinate on an axis.
    pub fn on(self, axis: Axis) -> f32
        ensures { result ≡ Points.on (Values.as_axis axis) (Values.as_point self) }
    {
        match axis {
            Axis::X => self.x,
            Axis::Y => self.y,
            Axis::Z => self.z,
        }
    }

    // The difference on each axis.
    pub fn minus(self, b: Vec3) -> Vec3
        ensures { Values.as_point result ≡ Points.minus binary32 (Values.as_point self) (Values.as_point b) }
    {
        self.zip(b, |p, q| p - q)
    }

    // The sum on each axis.
    pub fn plus(self, b: Vec3) -> Vec3
        ensures { Values.as_point result ≡ Points.plus binary32 (Values.as_point self) (Values.as_point b) }
    {
        self.zip(b, |p, q| p + q)
    }

    // Each coordinate times s.
    pub fn scale(self, s: f32) -> Vec3
        ensures { Values.as_point result ≡ Points.scale binary32 (Values.as_point self) s }
    {
        self.map(|p| p * s)
    }

    // Each coordinate divided by s.
    pub fn over(self, s: f32) -> Vec3
        ensures { Values.as_point result ≡ Points.divided_by binary32 (Values.as_point self) s }
    {
        self.map(|p| p / s)
    }

    // The dot product, summed from the left.
    pub fn dot(self, b: Vec3) -> f32
        ensures { result ≡ Points.dot binary32 (Values.as_point self) (Values.as_point b) }
    {
        self.x * b.x + self.y * b.y + self.z * b.z
    }

    // The cross product.
    pub fn cross(self, b: Vec3) -> Vec3
        ensures { Values.as_point result ≡ Points.cross binary32 (Values.as_point self) (Values.as_point b) }
    {
        Vec3 {
            x: self.y * b.z - self.z * b.y,
            y: self.z * b.x - self.x * b.z,
            z: self.x * b.y - self.y * b.x,
        }
    }

    // The smaller coordinate on each axis, by `min2`.
    pub fn smallest(self, b: Vec3) -> Vec3
        ensures { Values.as_point result ≡ Points.smallest (Values.as_point self) (Values.as_point b) }
    {
        self.zip(b, |p, q| floats::min2(p, q))
    }

    // The larger coordinate on each axis, by `max2`.
    pub fn largest(self, b: Vec3) -> Vec3
        ensures { Values.as_point result ≡ Points.largest (Values.as_point self) (Values.as_point b) }
    {
        self.zip(b, |p, q| floats::max2(p, q))
    }

    // Whether each coordinate is at most that of b.
    pub fn is_under(self, b: Vec3) -> bool
        ensures { result ≡ Points.is_under (Values.as_point self) (Values.as_point b) }
    {
        (self.x <= b.x) & (self.y <= b.y) & (self.z <= b.z)
    }

    // Whether each coordinate is finite.
    pub fn is_finite(self) -> bool
        ensures { result ≡ Points.is_finite (Values.as_point self) }
    {
        floats::is_finite(self.x) & floats::is_finite(self.y) & floats::is_finite(self.z)
    }

    // The same point with +0 for -0.
    pub fn plus_zero(self) -> Vec3
        ensures { Values.as_point result ≡ Points.plus_zero (Values.as_point self) }
    {
        self.map(|p| floats::plus_zero(p))
    }

    // The squared distance to p: the difference, and its dot product with itself.
    pub fn squared_distance(self, p: Vec3) -> f32
        ensures { result ≡ Points.squared_distance binary32 (Values.as_point self) (Values.as_point p) }
    {
        let d = self.minus(p);
        d.dot(d)
    }
}
