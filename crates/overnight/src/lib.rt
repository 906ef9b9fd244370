// No code: a run that was parked overnight goes on as the run that was not (specs/, proofs/).

#![tactic(auto)]
