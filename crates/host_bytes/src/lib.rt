// What crosses the border to C as bytes and numbers: the status that a call returns, points, answers.
// Each contract is an equation with a definition of `spec_host`.
#![tactic(auto)]

pub mod answers;
pub mod points;
pub mod status;
