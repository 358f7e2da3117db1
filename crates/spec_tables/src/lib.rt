// Definitions and laws of lists that are made piece by piece and written into lent ones: no code.
#![tactic(auto)]
