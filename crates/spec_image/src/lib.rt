// Definitions and laws of the image of a tree: no code.
#![tactic(auto)]
