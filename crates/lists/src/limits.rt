// The limits of the engine, each named once.

pub const MAX_TRIANGLES: usize = 65536;

// The nodes of a tree over the maximum of triangles, with one triangle in each leaf.
pub const MAX_NODES: usize = 2 * MAX_TRIANGLES - 1;

// The largest magnitude of a coordinate.
pub const FURTHEST_COORDINATE: f32 = 1048576.0;

pub const LONGEST_DISTANCE: f32 = 4194304.0;

pub const LARGEST_SCALE: f32 = 1000.0;

// The largest maximum depth that a host may set.
pub const DEEPEST: usize = 64;

pub const MAX_LEAF_MINIMUM: usize = 65536;
