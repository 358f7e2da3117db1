// The winding number by dipoles: sixteen numbers a node beside the tree, and the walk that uses them. Each contract is an equation with a
// definition of `spec_dipoles`.
#![tactic(auto)]

pub mod calls;
pub mod dipole;
pub mod far;
pub mod matrix3;
pub mod stored;
pub mod sums;
pub mod tests;
pub mod walk;
