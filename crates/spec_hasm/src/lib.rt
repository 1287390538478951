// What assembling a text means. There is no code here: see specs/ and proofs/.
#![tactic(auto)]
