// Numbers in bytes and the test of their range, one record, and the layout of the records of an image and of an input.
// Each contract is an equation with a definition of `spec_records`.
// What writes answers the index behind what it wrote.
#![tactic(auto)]

pub mod bodies;
pub mod coordinates;
pub mod entries;
pub mod layout;
pub mod numbers;
pub mod versions;
