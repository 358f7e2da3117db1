// Definitions and laws of square roots, arc tangents, solid angles and winding numbers: no code.
#![tactic(auto)]
