// What a job of the desk program says and what it prints. There is no code here: see specs/ and proofs/.
#![tactic(auto)]
