// Binary STL: a triangle list read from its bytes and written as its bytes, and the two public calls with their tests.
// Each contract is an equation with a definition of `spec_stl`.
#![tactic(auto)]

pub mod calls;
pub mod get;
pub mod put;
