// The queries over lists of points. Each contract is an equation with a definition of `spec_search`.
#![tactic(auto)]

pub mod calls;
pub mod query;
pub mod rules;
