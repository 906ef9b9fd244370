// No code: a run that is read from its file is one that a work call goes on with, as it would have gone on unparked (specs/, proofs/).

#![tactic(auto)]
