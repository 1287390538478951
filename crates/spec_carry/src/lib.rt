// What carrying a body to another sheet and string table means. There is no code here: see specs/ and proofs/.
#![tactic(auto)]
