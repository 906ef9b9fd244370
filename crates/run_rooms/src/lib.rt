// No code: what the entry tests have shown of lists and forces, as the functions that read them ask it (proofs/).

#![tactic(auto)]
