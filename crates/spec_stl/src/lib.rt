// Theory: a triangle list as binary STL, read and written. Definitions and laws, no code.
#![tactic(auto)]
