// No code: the smallest Barnes-Hut runs that the mirror does not show, computed by the checker (specs/, proofs/).

#![tactic(auto)]
