// Cuts in a step and across a whole film: definitions in specs/, theorems in proofs/. There is no code.
#![tactic(auto)]
