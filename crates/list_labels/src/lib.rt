// The label offsets of a body: collect_label_offsets of disasm.rs.
#![tactic(auto)]

pub mod body; // a body that is walked over
pub mod collect; // one walk over a body
pub mod distinct; // how many different numbers a slice has
pub mod flow_end; // which instructions end the flow
pub mod instruction_labels; // the label offsets of one instruction
pub mod opcode_rows; // what a listing needs of each opcode
pub mod offset_set; // an offset noted in a set, and counted
pub mod target; // the target of an Addr operand
