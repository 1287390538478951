// What decoding a body and encoding records mean. There is no code here: see specs/ and proofs/.
#![tactic(auto)]
