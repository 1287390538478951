// The string table, UTF-8 and escapes (util.rs).
#![tactic(auto)]

pub mod escapes; // texts with their escapes
pub mod table; // a table's faults, its entries, the lookup one by one
pub mod text_index; // the id of a text, by an index of all texts
pub mod unescape; // escapes read back
pub mod utf8; // whether bytes are UTF-8
