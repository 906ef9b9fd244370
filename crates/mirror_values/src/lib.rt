// No code: values as a mirror shows them, the sign of a zero aside, and that every operation of the exact rules keeps to it (specs/, proofs/).

#![tactic(auto)]
