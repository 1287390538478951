// What an opcode sheet says. There is no code here: see specs/ and proofs/.
#![tactic(auto)]
