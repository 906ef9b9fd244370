// No code: the rules of the exact method keep to what the mirror shows: numerators, totals, gradients, gains, increments, centring and refusal 15 (specs/, proofs/).

#![tactic(auto)]
