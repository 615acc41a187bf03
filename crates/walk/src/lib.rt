// What a host may rely on when it steps over a film: specs/Walk states it, proofs/Walk proves it. There is no code.
#![tactic(auto)]
