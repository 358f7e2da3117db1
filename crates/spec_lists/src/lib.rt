// Definitions and laws of the lists that come in: how they are read, what is refused, and what a list that passed gives. No code.
#![tactic(auto)]
