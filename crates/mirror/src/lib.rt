// No code: two exact runs, the start of the second with the sign of components turned, show each other in the mirror through preparation and any calls (specs/, proofs/).

#![tactic(auto)]
