// What `gauge` prints for the bytes that came in. Each contract is an equation with a definition of `spec_gauge`.
#![tactic(auto)]

pub mod answer_lines;
pub mod request;
pub mod run;
