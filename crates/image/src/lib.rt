// The image of a drawing and its tree: records put, lists read, and the writer and the reader with their tests.
// Each contract is an equation with a definition of `spec_image`.
#![tactic(auto)]

pub mod get;
pub mod put;
pub mod read;
pub mod size;
pub mod write;
