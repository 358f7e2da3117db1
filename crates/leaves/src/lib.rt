// The leaves of a tree in lent lists. Each contract is an equation with a definition of `spec_tree`.
#![tactic(auto)]

pub mod calls;
pub mod reader;
