// Means, as definitions alone: the step and the taking out of frames centre by them.

#![tactic(auto)]
