// Definitions and laws of points, boxes, planes and triangles, for f32 and f64 alike: no code.
#![tactic(auto)]
