// Carrying: a body into the opcodes, operand widths and string ids of another sheet and string table.
#![tactic(auto)]

pub mod carry; // the operation
pub mod edition; // a sheet and a string table
pub mod ids; // the second table's id of each text of the first
pub mod inputs; // 18, 17 and 1 of both sides, and the tables of both sheets
pub mod instructions; // all instructions: both passes of document 01 in one loop
pub mod marks; // what stands for a place or an id
pub mod new_bits; // what is written of one operand; 16, 10, 7 and 8
pub mod opcodes; // the second sheet's opcode of each opcode of the first
pub mod operand_carry; // one operand: read, checked and written
pub mod places; // where each instruction goes; 13 and 14
pub mod plans; // what is to be done with each operand of each opcode
