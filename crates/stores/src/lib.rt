// The list of stores of a drawing, calls that make a prefix of it, and the book of demand 3: definitions in specs/, theorems in proofs/.
#![tactic(auto)]
