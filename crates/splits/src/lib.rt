// The two split rules, by median and by area: where a slice of the order list is cut in two.
// They read the boxes of the triangles from a table. Each contract is an equation with a definition of `spec_splits`.
#![tactic(auto)]

pub mod area;
pub mod bucketing;
pub mod buckets;
pub mod costs;
pub mod median;
pub mod strategy;
pub mod table;
