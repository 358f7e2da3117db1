// Twelve buckets of boxes: how many boxes fell into each, and their union.
ghost use Rattle.std.specs.Prelude.{◌≡◌, ◌+◌, ◌^◌, ◌<◌};
ghost use Rattle.std.specs.Float.{binary32};
ghost use Rattle.shapes.specs.Values as Shapes;
ghost use Rattle.spec_splits.specs.Buckets as Spec;
ghost use Rattle.splits.specs.Values as Values;

use shapes::box3::Box3;

#[derive(Clone, Copy)]
pub struct Bucket {
    pub count: u32,
    pub bounds: Box3,
}

#[derive(Clone, Copy)]
pub struct Buckets {
    pub each: [Bucket; Buckets::COUNT],
}

impl Bucket {
    // A bucket of no boxes.
    pub fn empty() -> Bucket
        ensures { Values.as_bucket result ≡ Spec.empty_bucket binary32 }
    {
        Bucket {
            count: 0,
            bounds: Box3::empty(),
        }
    }

    // This bucket with one box more.
    pub fn with_box(self, b: Box3) -> Bucket
        requires { self.count < 2 ^ 28 }
        ensures { Values.as_bucket result ≡ Spec.with_box (Values.as_bucket self) (Shapes.as_box b) }
    {
        Bucket {
            count: self.count + 1,
            bounds: self.bounds.union_box(b),
        }
    }

    // This bucket with the boxes of another.
    pub fn merged(self, other: Bucket) -> Bucket
        requires { self.count + other.count < 2 ^ 32 }
        ensures { Values.as_bucket result ≡ Spec.merged (Values.as_bucket self) (Values.as_bucket other) }
    {
        Bucket {
            count: self.count + other.count,
            bounds: self.bounds.union_box(other.bounds),
        }
    }
}

impl Buckets {
    pub const COUNT: usize = 12;

    // The last bucket; behind each bucket before it lies a cut.
    pub const LAST: usize = Buckets::COUNT - 1;

    pub const CUTS: usize = Buckets::COUNT - 1;

    // The count as a float, by which an offset is scaled, and the last one as a float.
    pub const COUNT_F32: f32 = 12.0;

    pub const LAST_F32: f32 = 11.0;

    // Twelve empty buckets.
    pub fn empty() -> Buckets
        ensures { Values.as_buckets result ≡ Spec.empty_buckets binary32 }
    {
        let none = Bucket::empty();
        Buckets {
            each: [none; Buckets::COUNT],
        }
    }
}
