// No code: what is so of every run that a host prepares and works through its words (proofs/).

#![tactic(auto)]
