// Theory: the winding number by dipoles (`WindingNumbers` of the Rust). Definitions and laws, no code.
#![tactic(auto)]
