// What the desk's numbers mean, as bytes and as text. There is no code here: see specs/ and proofs/.
#![tactic(auto)]
