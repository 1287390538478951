// What the operands of a text are read under.
use hasm_labels::label_target::Labels;
use strings::text_index::TextIndex;

// The strings with an index of their texts, and the labels, which know the text and the tables of its sheet.
#[derive(Clone, Copy)]
pub struct Context<'a> {
    pub texts: TextIndex<'a>,
    pub labels: Labels<'a>,
}
