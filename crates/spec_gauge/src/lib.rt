// What gauge prints for the bytes that came in: definitions and laws, no code.
#![tactic(auto)]
