// No code: what a character and a transmission withstand, over the definitions of `characters` and `transmission`.
#![tactic(auto)]
