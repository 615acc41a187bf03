// No code: a step depends on what an opcode holds, not on where it stands, and leaves the cursor behind it.
#![tactic(auto)]
