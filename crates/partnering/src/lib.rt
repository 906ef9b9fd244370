// No code: what a run begun from a partner's list is, and what our own lists are to a partner (specs/, proofs/).

#![tactic(auto)]
