// A triangle, its box, the source's closest point of it, and the sure query's point of it, each with the part that was hit.
ghost use Rattle.std.specs.Prelude.{◌≡◌};
ghost use Rattle.std.specs.Float.{binary32};
ghost use Rattle.spec_shapes.specs.Points as Points;
ghost use Rattle.spec_shapes.specs.Boxes as Boxes;
ghost use Rattle.spec_shapes.specs.Triangles as Triangles;
ghost use Rattle.shapes.specs.Values as Values;

use crate::box3::Box3;
use crate::vec3::Vec3;

#[derive(Clone, Copy)]
pub struct Triangle3 {
    pub a: Vec3,
    pub b: Vec3,
    pub c: Vec3,
}

// The part of a triangle that holds the closest point.
#[derive(Clone, Copy)]
pub enum Part {
    Face,
    CornerA,
    CornerB,
    CornerC,
    EdgeAB,
    EdgeAC,
    EdgeBC,
}

// A point of a triangle, and the part that was hit.
#[derive(Clone, Copy)]
pub struct Spot {
    pub point: Vec3,
    pub part: Part,
}

// What the tests for the closest part compare: the dot products of the edges ab and ac with the point as seen from a (d1, d2),
// from b (d3, d4) and from c (d5, d6).
#[derive(Clone, Copy)]
pub struct Dots {
    pub d1: f32,
    pub d2: f32,
    pub d3: f32,
    pub d4: f32,
    pub d5: f32,
    pub d6: f32,
}

// The number by which an answer tells the part.
impl From<Part> for u32 {
    ghost from_gives = { λ part number. number ≡ Triangles.part_number (Values.as_part part) };

    fn from(part: Part) -> u32 {
        part as u32
    }
}

impl Spot {
    // With its point held into the box. The part stays.
    fn hold(self, bounds: Box3) -> Spot
        ensures { Values.as_spot result ≡ Triangles.moved (Boxes.held_in (Values.as_box bounds)) (Values.as_spot self) }
    {
        Spot {
            point: bounds.hold(self.point),
            ..self
        }
    }

    // With +0 for -0.
    fn plus_zero(self) -> Spot
        ensures { Values.as_spot result ≡ Triangles.moved Points.plus_zero (Values.as_spot self) }
    {
        Spot {
            point: self.point.plus_zero(),
            ..self
        }
    }
}

// ab - cd
fn crossed(a: f32, b: f32, c: f32, d: f32) -> f32
    ensures { result ≡ Triangles.crossed binary32 a b c d }
{
    a * b - c * d
}

// start + edge * s
fn along(start: Vec3, edge: Vec3, s: f32) -> Vec3
    ensures { Values.as_point result ≡ Triangles.along binary32 (Values.as_point start) (Values.as_point edge) s }
{
    start.plus(edge.scale(s))
}

impl Dots {
    // The weight of corner a, up to the common divisor.
    fn va(self) -> f32
        ensures { result ≡ Triangles.va binary32 (Values.as_dots self) }
    {
        crossed(self.d3, self.d6, self.d5, self.d4)
    }

    // The weight of corner b, up to the common divisor.
    fn vb(self) -> f32
        ensures { result ≡ Triangles.vb binary32 (Values.as_dots self) }
    {
        crossed(self.d5, self.d2, self.d1, self.d6)
    }

    // The weight of corner c, up to the common divisor.
    fn vc(self) -> f32
        ensures { result ≡ Triangles.vc binary32 (Values.as_dots self) }
    {
        crossed(self.d1, self.d4, self.d3, self.d2)
    }

    // The part that holds the closest point: the first of the source's tests that answers.
    pub fn part(self) -> Part
        ensures { Values.as_part result ≡ Triangles.part binary32 (Values.as_dots self) }
    {
        if (self.d1 <= 0.0) & (self.d2 <= 0.0) {
            return Part::CornerA;
        }
        if (self.d3 >= 0.0) & (self.d4 <= self.d3) {
            return Part::CornerB;
        }
        if (self.vc() <= 0.0) & (self.d1 >= 0.0) & (self.d3 <= 0.0) {
            return Part::EdgeAB;
        }
        if (self.d6 >= 0.0) & (self.d5 <= self.d6) {
            return Part::CornerC;
        }
        if (self.vb() <= 0.0) & (self.d2 >= 0.0) & (self.d6 <= 0.0) {
            return Part::EdgeAC;
        }
        if (self.va() <= 0.0) & (self.d4 - self.d3 >= 0.0) & (self.d5 - self.d6 >= 0.0) {
            return Part::EdgeBC;
        }
        Part::Face
    }
}

impl Triangle3 {
    // The smallest box around the three corners.
    pub fn bbox(self) -> Box3
        ensures { Values.as_box result ≡ Triangles.box_of (Values.as_triangle self) }
    {
        Box3 {
            min: self.c.smallest(self.a.smallest(self.b)),
            max: self.c.largest(self.a.largest(self.b)),
        }
    }

    // The dot products for p.
    pub fn dots(self, p: Vec3) -> Dots
        ensures { Values.as_dots result ≡ Triangles.dots binary32 (Values.as_triangle self) (Values.as_point p) }
    {
        let ab = self.b.minus(self.a);
        let ac = self.c.minus(self.a);
        let ap = p.minus(self.a);
        let bp = p.minus(self.b);
        let cp = p.minus(self.c);
        Dots {
            d1: ab.dot(ap),
            d2: ac.dot(ap),
            d3: ab.dot(bp),
            d4: ac.dot(bp),
            d5: ab.dot(cp),
            d6: ac.dot(cp),
        }
    }

    // The point whose weights the dot products give, divided by their sum.
    fn point_in_face(self, d: Dots) -> Vec3
        ensures { Values.as_point result ≡ Triangles.face_point binary32 (Values.as_triangle self) (Values.as_dots d) }
    {
        let vb = d.vb();
        let vc = d.vc();
        let denom = 1.0 / (d.va() + vb + vc);
        let on_ab = along(self.a, self.b.minus(self.a), vb * denom);
        along(on_ab, self.c.minus(self.a), vc * denom)
    }

    // The closest point, once its part is known.
    pub fn point_on(self, d: Dots, part: Part) -> Vec3
        ensures { Values.as_point result ≡ Triangles.point_on binary32 (Values.as_triangle self) (Values.as_dots d) (Values.as_part part) }
    {
        match part {
            Part::Face => self.point_in_face(d),
            Part::CornerA => self.a,
            Part::CornerB => self.b,
            Part::CornerC => self.c,
            Part::EdgeAB => along(self.a, self.b.minus(self.a), d.d1 / (d.d1 - d.d3)),
            Part::EdgeAC => along(self.a, self.c.minus(self.a), d.d2 / (d.d2 - d.d6)),
            Part::EdgeBC => {
                let to_b = d.d4 - d.d3;
                let to_c = d.d5 - d.d6;
                along(self.b, self.c.minus(self.b), to_b / (to_b + to_c))
            }
        }
    }

    // The source's closest point of the triangle to p, and the test that answered.
    pub fn closest_spot(self, p: Vec3) -> Spot
        ensures { Values.as_spot result ≡ Triangles.closest_spot binary32 (Values.as_triangle self) (Values.as_point p) }
    {
        let d = self.dots(p);
        let part = d.part();
        Spot {
            point: self.point_on(d, part),
            part,
        }
    }

    // The foot of p on an edge, held into the triangle's box.
    fn held_foot(self, start: Vec3, end: Vec3, p: Vec3) -> Vec3
        ensures { Values.as_point result
            ≡ Triangles.held_foot binary32 (Values.as_triangle self) (Values.as_point start) (Values.as_point end) (Values.as_point p) }
    {
        self.bbox().hold(finite_or(start, foot(start, end, p)))
    }

    // That foot, with its part: the edge, or the corner where the edge starts if it has no length.
    fn foot_spot(self, start: Vec3, end: Vec3, corner: Part, edge: Part, p: Vec3) -> Spot
        ensures { Values.as_spot result
            ≡ Triangles.foot_spot binary32 (Values.as_triangle self) (Values.as_point start) (Values.as_point end) (Values.as_part corner) (Values.as_part edge)
            (Values.as_point p) }
    {
        Spot {
            point: self.held_foot(start, end, p),
            part: foot_part(start, end, corner, edge),
        }
    }

    // The nearest of the feet on ab, ac and bc, the earlier edge among equals.
    fn nearest_foot(self, p: Vec3) -> Spot
        ensures { Values.as_spot result ≡ Triangles.nearest_foot binary32 (Values.as_triangle self) (Values.as_point p) }
    {
        let on_ab = self.foot_spot(self.a, self.b, Part::CornerA, Part::EdgeAB, p);
        let on_ac = self.foot_spot(self.a, self.c, Part::CornerA, Part::EdgeAC, p);
        let on_bc = self.foot_spot(self.b, self.c, Part::CornerB, Part::EdgeBC, p);
        nearer_foot(p, nearer_foot(p, on_ab, on_ac), on_bc)
    }

    // The computed closest point q held into the triangle's box, with +0 for -0. Where q is not finite, the nearest foot of p on an edge stands for it.
    pub fn held(self, p: Vec3, q: Spot) -> Spot
        ensures { Values.as_spot result ≡ Triangles.held_from binary32 (Values.as_triangle self) (Values.as_point p) (Values.as_spot q) }
    {
        if q.point.is_finite() {
            return q.hold(self.bbox()).plus_zero();
        }
        self.nearest_foot(p).plus_zero()
    }

    // The sure query's point: the closest point, held into the triangle's box.
    pub fn held_spot(self, p: Vec3) -> Spot
        ensures { Values.as_spot result ≡ Triangles.held_spot binary32 (Values.as_triangle self) (Values.as_point p) }
    {
        self.held(p, self.closest_spot(p))
    }
}

// The foot of p on the edge from start to end: start + edge * s with s from 0 to 1, or the start where the edge has no length.
fn foot(start: Vec3, end: Vec3, p: Vec3) -> Vec3
    ensures { Values.as_point result ≡ Triangles.foot binary32 (Values.as_point start) (Values.as_point end) (Values.as_point p) }
{
    let edge = end.minus(start);
    let size = edge.dot(edge);
    if size == 0.0 {
        return start;
    }
    along(
        start,
        edge,
        floats::held(0.0, 1.0, edge.dot(p.minus(start)) / size),
    )
}

// The part that a foot on the edge from start to end hits: the edge, or the corner where it starts if it has no length.
fn foot_part(start: Vec3, end: Vec3, corner: Part, edge: Part) -> Part
    ensures { Values.as_part result
        ≡ Triangles.foot_part binary32 (Values.as_point start) (Values.as_point end) (Values.as_part corner) (Values.as_part edge) }
{
    let side = end.minus(start);
    if side.dot(side) == 0.0 { corner } else { edge }
}

// The foot with the smaller squared distance to p, the first among equals.
fn nearer_foot(p: Vec3, first: Spot, second: Spot) -> Spot
    ensures { Values.as_spot result ≡ Triangles.nearer_foot binary32 (Values.as_point p) (Values.as_spot first) (Values.as_spot second) }
{
    if second.point.squared_distance(p) < first.point.squared_distance(p) {
        second
    } else {
        first
    }
}

// q, or a where a coordinate of q is not finite.
fn finite_or(a: Vec3, q: Vec3) -> Vec3
    ensures { Values.as_point result ≡ Triangles.finite_or (Values.as_point a) (Values.as_point q) }
{
    if q.is_finite() { q } else { a }
}
