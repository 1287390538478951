// A body that is walked over.
ghost use Rattle.std.specs.Prelude.{◌≤◌, length};
ghost use Rattle.limits.specs.Limits.{body_limit};
ghost use Rattle.list_labels.specs.OpcodeRows.{RowsFit};

use crate::opcode_rows::OpcodeRow;

// The bytes of a body, with the types and rows of its sheet's opcodes and the largest of these.
#[derive(Clone, Copy)]
pub struct Body<'a> {
    pub types: &'a [[u8; 8]; 256],
    pub rows: &'a [OpcodeRow; 256],
    pub last: usize,
    pub bytes: &'a [u8],
    pub ghost few: { length bytes.now ≤ body_limit },
    pub ghost fit: { RowsFit types.now last rows.now },
}
