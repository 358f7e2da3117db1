// Definitions and laws of numbers in bytes and of records of bytes: no code.
#![tactic(auto)]
