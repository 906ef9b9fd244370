// No code: more values of the definitions than the table of cases has, computed by the checker (specs/).

#![tactic(auto)]
