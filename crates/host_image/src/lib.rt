// Images for a C host: how large one gets, how many triangles one has, a drawing's lists written and read back.
// Each contract is an equation with a definition of `spec_host`.
#![tactic(auto)]

pub mod calls;
pub mod statuses;
