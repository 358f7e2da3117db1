// Definitions and laws of the tree over the triangles: no code.
#![tactic(auto)]
