// Three by three numbers, by columns.
ghost use Rattle.std.specs.Prelude.{◌≡◌};
ghost use Rattle.std.specs.Float.{binary32};
ghost use Rattle.shapes.specs.Values as Shapes;
ghost use Rattle.spec_dipoles.specs.Matrices as Matrices;
ghost use Rattle.dipoles.specs.Values as Values;

use shapes::vec3::Vec3;

#[derive(Clone, Copy)]
pub struct Matrix3 {
    pub x: Vec3,
    pub y: Vec3,
    pub z: Vec3,
}

impl Matrix3 {
    // f of both columns, for each column.
    fn zip<F: Fn(Vec3, Vec3) -> Vec3>(self, b: Matrix3, f: F) -> Matrix3
        requires { F.IsAlwaysCallable f }
        ensures x { F.post f self.x b.x result.x }
        ensures y { F.post f self.y b.y result.y }
        ensures z { F.post f self.z b.z result.z }
    {
        Matrix3 {
            x: f(self.x, b.x),
            y: f(self.y, b.y),
            z: f(self.z, b.z),
        }
    }

    // The sum, entry by entry.
    pub fn plus(self, b: Matrix3) -> Matrix3
        ensures { Values.as_matrix result ≡ Matrices.added binary32 (Values.as_matrix self) (Values.as_matrix b) }
    {
        self.zip(b, Vec3::plus)
    }

    // The difference, entry by entry.
    pub fn minus(self, b: Matrix3) -> Matrix3
        ensures { Values.as_matrix result ≡ Matrices.less binary32 (Values.as_matrix self) (Values.as_matrix b) }
    {
        self.zip(b, Vec3::minus)
    }

    // Each entry divided by s.
    // Kept: (d) alone of its kind, so `self.map(|v| v.over(s))` would want a `map` of twelve lines that nothing else calls.
    pub fn over(self, s: f32) -> Matrix3
        ensures { Values.as_matrix result ≡ Matrices.over binary32 (Values.as_matrix self) s }
    {
        Matrix3 {
            x: self.x.over(s),
            y: self.y.over(s),
            z: self.z.over(s),
        }
    }

    // The nine products added to zero, down each column, columns from the left.
    pub fn dot(self, b: Matrix3) -> f32
        ensures { result ≡ Matrices.dot_of binary32 (Values.as_matrix self) (Values.as_matrix b) }
    {
        down_column(
            down_column(down_column(0.0, self.x, b.x), self.y, b.y),
            self.z,
            b.z,
        )
    }
}

// A sum, and then the three products down a column.
fn down_column(sum: f32, a: Vec3, b: Vec3) -> f32
    ensures { result ≡ Matrices.down_column binary32 sum (Shapes.as_point a) (Shapes.as_point b) }
{
    sum + a.x * b.x + a.y * b.y + a.z * b.z
}

// Nine zeros.
pub fn zeros() -> Matrix3
    ensures { Values.as_matrix result ≡ Matrices.zeros }
{
    let origin = Vec3::splat(0.0);
    Matrix3 {
        x: origin,
        y: origin,
        z: origin,
    }
}

// Column a times row b.
pub fn outer(a: Vec3, b: Vec3) -> Matrix3
    ensures { Values.as_matrix result ≡ Matrices.outer binary32 (Shapes.as_point a) (Shapes.as_point b) }
{
    Matrix3 {
        x: a.scale(b.x),
        y: a.scale(b.y),
        z: a.scale(b.z),
    }
}

// The identity times s, entry by entry.
pub fn identity_times(s: f32) -> Matrix3
    ensures { Values.as_matrix result ≡ Matrices.identity_times binary32 s }
{
    let on = 1.0 * s;
    let off = 0.0 * s;
    Matrix3 {
        x: Vec3 {
            x: on,
            y: off,
            z: off,
        },
        y: Vec3 {
            x: off,
            y: on,
            z: off,
        },
        z: Vec3 {
            x: off,
            y: off,
            z: on,
        },
    }
}
