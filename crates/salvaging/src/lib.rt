// No code: what holds of every frame file that is salvaged (specs/, proofs/).

#![tactic(auto)]
