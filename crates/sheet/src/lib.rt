// The opcode sheet (opcode.rs).
#![tactic(auto)]

pub mod family; // the families of operand types
pub mod letter_word; // the letters in front of eight bytes
pub mod line; // one opcode line
pub mod line_word; // the fixed texts and the number of an opcode line by words
pub mod name_filter; // a filter that tells most new names at one look
pub mod name_index; // the opcode of a name, by an index of all names
pub mod opcode; // a sheet's text read into tables by opcode
pub mod operand_types; // the twelve types: widths, families, kinds
pub mod row; // the length and the operand count of a row of type codes
pub mod rows; // an opcode line stored, a name looked up
pub mod scan; // the parts of a line
pub mod tables; // a sheet that was read
pub mod type_word; // the name of an operand type by one word
