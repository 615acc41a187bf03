// Lists of stores of bytes, and that the first of a list are made: definitions in specs/, laws in proofs/.
#![tactic(auto)]
