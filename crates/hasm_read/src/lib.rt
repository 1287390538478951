// The lines of a text and what stands on each: comments, operands, offsets, labels (parse.rs).
#![tactic(auto)]

pub mod commas; // operands parted at commas outside of quotes
pub mod comment; // where a line's comment starts
pub mod hex_prefix; // the `0x` of a hex number
pub mod line_offset; // the offset in front of an instruction
pub mod line_shape; // lines that are skipped, and label lines
pub mod lines; // a text's lines, 3 and 2
pub mod quote; // a quote, and one with a backslash before it
pub mod statement; // what a line is
pub mod white_space; // white space, as Rust trims it
