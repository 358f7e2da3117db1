// A tree in lent lists: its nodes, the tree check, its depth. Each contract is an equation with a definition of `spec_tree`.
#![tactic(auto)]

pub mod boxes;
pub mod calls;
pub mod count;
pub mod depth;
pub mod listing;
pub mod nodes;
pub mod permutation;
pub mod scan;
