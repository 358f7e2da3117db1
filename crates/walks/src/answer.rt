// What a walk is given, and what it answers; which query is made.
use shapes::vec3::Vec3;

// The query that was added, with the number of its measuring rule; the same for so many answers a point; or the one that is carried over, which has no
// rule.
// Kept: (d) a rule is its number, as the tests of a query see any; `match Rule::from(rule)` would be a type and its From for `walk_limit`'s one line.
#[derive(Clone, Copy)]
pub enum Query {
    Sure { rule: u32 },
    Few { rule: u32, most: u32 },
    Source,
}

// Which point of a triangle is measured: the sure walk's, or the source's.
#[derive(Clone, Copy)]
pub enum Measures {
    Held,
    Computed,
}

// The probe: a point, and the square of the search distance as its limit.
#[derive(Clone, Copy)]
pub struct Probe {
    pub point: Vec3,
    pub limit: f32,
}

// The measure of one triangle: its surface point with the squared distance, the triangle's number, and that of the part that was hit. A search
// answers one, or nothing.
#[derive(Clone, Copy)]
pub struct Hit {
    pub point: Vec3,
    pub squared: f32,
    pub triangle: u32,
    pub part: u32,
}

// The best answer so far, and how many triangles were measured.
#[derive(Clone, Copy)]
pub struct Sought {
    pub best: Option<Hit>,
    pub measured: usize,
}
