// Definitions and laws of the stable sort by keys: no code.
#![tactic(auto)]
