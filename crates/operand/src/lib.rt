// An operand's value: OperandValue of instructions.rs, read from a body (instructions.rs) and written as bytes (encode.rs).
#![tactic(auto)]

pub mod read; // the operand of a type at a place of a body
pub mod reader; // ByteReader (io.rs): a lent body with a position, and its reads
pub mod value; // the enum, made from a kind and bits and turned back into them
pub mod write; // a value into an operand of a type, with its conversions
