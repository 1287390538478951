// The first pass over a text: names and operand counts, 4 and 5, and the label list.
#![tactic(auto)]

pub mod hold_label; // a label kept in the lent entries
pub mod instruction_name; // an instruction's name and operand count
pub mod label_entry; // one lent entry: start and length of the label's text, and its offset
pub mod label_index; // the long labels by their texts' hashes
pub mod label_target; // the offset of a label, by the index or from the text
pub mod names_pass; // all lines
pub mod own_label; // a label in one word, where too few entries are lent
pub mod own_labels; // labels in the index that holds them
pub mod source; // a text with what its names are read by
pub mod take_line; // one line
pub mod text_labels; // that index, of a text
