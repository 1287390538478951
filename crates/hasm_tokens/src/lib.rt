// Tokens and their values, 6 to 12 (parse_operand_token of parse.rs).
#![tactic(auto)]

pub mod address_token; // addresses, 7 and 8
pub mod number_token; // registers, numbers and doubles, 6, 11 and 12
pub mod text_token; // quoted texts, 9 and 10
