// The build of a tree over a triangle list, with its tests. Each contract is an equation with a definition of `spec_build`.
#![tactic(auto)]

pub mod calls;
pub mod tests;
