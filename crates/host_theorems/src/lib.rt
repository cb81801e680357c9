// No code: what holds of every trace, carried to a host in C that hands on the bytes it was left.
#![tactic(auto)]
