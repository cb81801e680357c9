// Document 01 as definitions, and the theorem on charges: all of it stands in specs/ and proofs/.
#![tactic(auto)]
