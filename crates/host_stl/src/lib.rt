// STLs for a C host: one read into a triangle list, and a triangle list written as one.
// Each contract is an equation with a definition of `spec_host`.
#![tactic(auto)]

pub mod calls;
