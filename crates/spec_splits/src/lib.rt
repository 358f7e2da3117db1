// Definitions and laws of the two split rules, by median and by area: no code.
#![tactic(auto)]
