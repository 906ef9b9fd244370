// No code: what the tree of a run is worth after any calls, as theorems over the definitions of the calls (proofs/).

#![tactic(auto)]
