// Numbers in bytes, read from text and printed, and doubles by their bits.
#![tactic(auto)]

pub mod little_endian; // little-endian numbers (io.rs)
pub mod parse; // numbers read as Rust's u32, i32 and hex
pub mod print_digits; // digits of a base
pub mod print_decimal; // numbers printed in decimal
pub mod print_double; // a double as it is listed
pub mod print_hex; // numbers printed in hex
pub mod print_words; // numbers printed by whole words
pub mod read_double; // a double as it is read
pub mod signed; // two's complement, and sums that wrap
pub mod value; // the f64 of 64 bits
pub mod whole; // which doubles are whole
pub mod words; // bytes written by whole words
