// The lent lists: the limits, the tests of a list, why one is refused, and how a list that passed is read.
// Each contract is an equation with a definition of `spec_lists`.
#![tactic(auto)]

pub mod coordinates;
pub mod drawing;
pub mod limits;
pub mod reading;
pub mod refusal;
pub mod settings;
pub mod tests;
