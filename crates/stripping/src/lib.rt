// No code: what the order along the strip and its gaps are, and what handing out leaves (specs/, proofs/).

#![tactic(auto)]
