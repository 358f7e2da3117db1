// Builds a drawing for a C host, in the lists that it lends. The contract is an equation with a definition of `spec_host`.
#![tactic(auto)]

pub mod calls;
