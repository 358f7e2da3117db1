// Answers a C host's queries over the lists that it keeps: they are tested, and queried at the bytes of points where they lie.
// Each contract is an equation with a definition of `spec_host`.
#![tactic(auto)]

pub mod calls;
pub mod fast_windings;
pub mod point_queries;
pub mod point_windings;
pub mod windings;
