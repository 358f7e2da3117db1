// Points, boxes, the plane test and triangles, each with its operations. Each contract is an equation with a definition of `spec_shapes`.
// Every operation rounds in the order of the Rust, so that an answer is the same bit for bit.
#![tactic(auto)]

pub mod box3;
pub mod plane3;
pub mod triangle3;
pub mod vec3;
