// What a listing is made by.
ghost use Rattle.list_labels.specs.OpcodeRows.{OpcodeRows};

use crate::options::Options;
use list_labels::opcode_rows::OpcodeRow;
use sheet::tables::Tables;
use strings::table::StringTable;

// What a listing shows, a sheet's tables with the rows of its opcodes and the largest of these, and a string table.
#[derive(Clone, Copy)]
pub struct Lister<'a> {
    pub options: Options,
    pub tables: Tables<'a>,
    pub strings: StringTable<'a>,
    pub rows: &'a [OpcodeRow; 256],
    pub last: usize,
    pub ghost made: { OpcodeRows tables.text.now tables.types.now tables.ops.now last rows.now },
}
