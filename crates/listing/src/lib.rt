// Listing a body, or one function of an area: disassemble_function of disasm.rs.
#![tactic(auto)]

pub mod body; // a body's labels and lines
pub mod body_lines; // the lines, with the labels known
pub mod instruction; // one instruction
pub mod list; // the operation on a body
pub mod list_function; // the operation on a function
pub mod lister; // what a listing is made by
pub mod operand_text; // one operand, and all of an instruction
pub mod options; // what a listing shows
