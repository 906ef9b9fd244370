// No code: why a run is refused at its entry, a condition for each kind of fault, and that each is told exactly where it holds (specs/, proofs/).

#![tactic(auto)]
