// No code: that each valid sequence has one meaning and each valid meaning one sequence, over the definitions of `sequence`.
#![tactic(auto)]
