// A text to be assembled, with what its names are read by.
ghost use Rattle.std.specs.Prelude.{◌≡◌, ◌≤◌, length};
ghost use Rattle.limits.specs.Limits.{text_limit};
ghost use Rattle.sheet.specs.Keys.{NamesIndexed};
ghost use Rattle.hasm_read.specs.Lines.{ShortLines};

use sheet::name_index::Names;
use sheet::tables::Tables;

// The text, of which 3 refuses no line, its sheet, and the index of the sheet's names.
#[derive(Clone, Copy)]
pub struct Source<'a> {
    pub text: &'a [u8],
    pub tables: Tables<'a>,
    pub names: &'a [u32],
    pub ghost indexed: { NamesIndexed tables.text.now tables.ops.now names.now },
    pub ghost limited: { length text.now ≤ text_limit },
    pub ghost short: { ShortLines text.now },
}

impl<'a> Source<'a> {
    pub fn names(self) -> Names<'a>
        ensures text { result.text ≡ self.entry.tables.text }
        ensures ops { result.ops ≡ self.entry.tables.ops }
    {
        Names {
            text: self.tables.text,
            ops: self.tables.ops,
            index: self.names,
        }
    }
}
