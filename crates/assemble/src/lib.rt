// Assembling a text under a sheet and a string table: its instructions as bytes, then the operation.
#![tactic(auto)]

pub mod assemble; // the operation
pub mod body; // all instructions of a text as bytes
pub mod context; // what operands are read under
pub mod instruction; // one instruction as bytes
pub mod listed; // all instructions, with the labels listed and indexed
pub mod operands; // an instruction's operands as bytes
pub mod passes; // the passes over a text in document 01's order
pub mod token_operand; // the value of one operand's token
