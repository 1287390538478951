// Theorems over the definitions: the starred trials, and the circle of listing and assembling. No code.
#![tactic(auto)]
