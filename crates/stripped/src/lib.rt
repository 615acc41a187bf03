// No code: what is left of a film plays as the film does.
#![tactic(auto)]
