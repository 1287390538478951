// Listing all functions of an area: disassemble_all of disasm.rs.
#![tactic(auto)]

pub mod banner; // a function's banner
pub mod function_part; // one function under its banner
pub mod module; // the operation
