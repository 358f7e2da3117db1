// A drawing: its triangle list, and the lists of the tree over it, as a caller lends them. They may be any lists at all: the tests tell.

// Nine numbers a triangle; the order of the triangles along the leaves; three links and six box numbers for each of the nodes.
#[derive(Clone, Copy)]
pub struct Drawing<'a> {
    pub triangles: &'a [f32],
    pub order: &'a [u32],
    pub links: &'a [u32],
    pub boxes: &'a [f32],
    pub nodes: usize,
}
