// No code: what is written is read, what was read is written, and a file is read exactly where some run writes it (proofs/).

#![tactic(auto)]
