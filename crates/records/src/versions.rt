// The two versions of an image: how many triangles each keeps, and what differs in size. Entries of the second have four bytes.
ghost use Rattle.std.specs.Prelude.{◌≡◌, ◌*◌, ◌<◌, ◌^◌};
ghost use Rattle.spec_records.specs.Layouts.{version_for, node_size};
ghost use Rattle.records.specs.Values.{shape_of};

// A version of the image.
#[derive(Clone, Copy, PartialEq, Eq)]
pub enum Version {
    One,
    Two,
}

impl Version {
    // The version that keeps so many triangles.
    #[tactic(auto, using(spec_records::proofs::Layouts::version_by))]
    pub fn of(triangles: usize) -> Version
        ensures { shape_of result ≡ version_for triangles }
    {
        if triangles > 4096 {
            Version::Two
        } else {
            Version::One
        }
    }

    // Its number.
    pub fn number(self) -> u32
        ensures { result ≡ (shape_of self).version }
    {
        match self {
            Version::One => 1,
            Version::Two => 2,
        }
    }

    // How many bytes so many order entries take.
    pub fn order_size(self, triangles: usize) -> usize
        requires { 4 * triangles < 2 ^ 64 }
        ensures { result ≡ (shape_of self).entry * triangles }
    {
        match self {
            Version::One => 2 * triangles,
            Version::Two => 4 * triangles,
        }
    }

    // How many bytes a node takes.
    pub fn node_size(self) -> usize
        ensures { result ≡ node_size (shape_of self) }
    {
        match self {
            Version::One => 30,
            Version::Two => 34,
        }
    }
}
