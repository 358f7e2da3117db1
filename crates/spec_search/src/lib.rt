// Definitions and laws of the two queries, walk and scan, for f32 and f64 alike: no code.
#![tactic(auto)]
