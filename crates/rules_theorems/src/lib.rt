// No code: what else `rules` claims of every run, in its Statement: of order, lines, ringing, what is repeated, ships that are called.
#![tactic(auto)]
