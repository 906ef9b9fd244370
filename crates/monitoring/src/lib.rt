// Theorems on the file for the picture monitor: proofs/. No code.

#![tactic(auto)]
