// Definitions and laws on lists that every layer shares. There is no code here: see specs/ and proofs/.
#![tactic(auto)]
