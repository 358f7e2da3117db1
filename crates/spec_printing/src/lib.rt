// Definitions and laws of what `gauge` prints: no code.
#![tactic(auto)]
