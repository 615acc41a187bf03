// What the separate calls of opening and of steps come to, and that the opening call answers and leaves that: specs/Separate states it. There is no code.
#![tactic(auto)]
