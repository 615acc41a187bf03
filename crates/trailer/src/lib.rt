// A frame of Video 1 stored by the encoder: what it is in specs/, that it is drawn again in proofs/. There is no code.
#![tactic(auto)]
