// The worked examples of the scope document, E1 to E10, as one table under one theorem: no code.
#![tactic(auto)]
