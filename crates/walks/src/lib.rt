// The two walks of a tree for one point: the source's, and the sure one, which keeps the nearest few. Each contract is an equation with a definition of
// `spec_search`.
#![tactic(auto)]

pub mod answer;
pub mod kept;
pub mod leaf;
pub mod places;
pub mod source;
pub mod sure;
pub mod words;
