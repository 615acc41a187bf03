// The marked cases of document 01's "Checked by hand", and palette opcodes with an allowance, computed of the definitions that the contracts cite. There is no code.
#![tactic(auto)]
