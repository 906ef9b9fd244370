// No code: calls with a budget over counted units, whatever a unit does (specs/), and demand 3 with its kin for every lawful machine (proofs/).

#![tactic(auto)]
