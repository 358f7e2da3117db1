// Definitions and laws of the calls for a C host: what the one number that a call answers tells, building a drawing in lent lists,
// its image written and read back, and asking lists at point bytes. No code.
#![tactic(auto)]
