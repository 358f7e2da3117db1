// Building: how a tree is grown from a triangle list. Definitions in specs/, laws in proofs/; no code.
#![tactic(auto)]
