// What a body is written by: a sheet and a string table.

use sheet::tables::Tables;
use strings::table::StringTable;

// The sheet's text, and a string table.
#[derive(Clone, Copy)]
pub struct Edition<'a> {
    pub sheet: &'a [u8],
    pub strings: StringTable<'a>,
}

// The same with the sheet read.
#[derive(Clone, Copy)]
pub struct Opened<'a> {
    pub tables: Tables<'a>,
    pub strings: StringTable<'a>,
}
