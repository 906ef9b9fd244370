// No code: the scope paper's table of cases a) to k), proved together (specs/).

#![tactic(auto)]
