// No code: what the tree that the insertions build is worth, as theorems over the definitions of insertion and walk (proofs/).

#![tactic(auto)]
