// Numbers and lines as bytes. Each contract is an equation with a definition of `spec_printing`. What writes answers the index behind what it wrote.
#![tactic(auto)]

pub mod lines;
pub mod numbers;
