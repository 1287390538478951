// What every operation answers: why it refuses, and its answer as four numbers. What it leaves in lent space is said in specs/.
#![tactic(auto)]

pub mod failure; // what an operation answers
pub mod report; // an answer as four numbers
pub mod refusal; // why an operation refuses
pub mod space; // the space that an operation needs
