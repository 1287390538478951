// What listing a body, a function and a module means. There is no code here: see specs/ and proofs/.
#![tactic(auto)]
