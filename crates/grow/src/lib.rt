// Grows a tree over a triangle list: the tables that a build works on, the tries to split on each axis, the recursion.
// Each contract is an equation with a definition of `spec_build`.
#![tactic(auto)]

pub mod axes;
pub mod grow;
pub mod nodes;
pub mod tables;
pub mod tries;
