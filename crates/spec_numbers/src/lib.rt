// Definitions and laws of floating-point numbers, for f32 and f64 alike: no code.
#![tactic(auto)]
