// What the string table, its texts and their escapes mean. There is no code here: see specs/ and proofs/.
#![tactic(auto)]
