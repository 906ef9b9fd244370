// No code: what a removal of frames leaves, and what a run does between removals (specs/, proofs/).

#![tactic(auto)]
