// Decoding: a body, or one function of an area, into records.
#![tactic(auto)]

pub mod body; // a body into records, in one pass
pub mod instructions; // the operations (instructions.rs)
pub mod pair; // two elements side by side
pub mod record; // the 20 words of one instruction
pub mod tables; // a plan for each opcode, made once for a body
