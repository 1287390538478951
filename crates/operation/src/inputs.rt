// The inputs that an operation takes beside its body or text: a string table and a sheet, with their refusals in order.
ghost use Rattle.std.specs.Prelude.{◌≡◌};
ghost use Rattle.spec_sheet.specs.Sheet.{no_type_rows, no_info_rows};
ghost use Rattle.operation.specs.Read.{SheetGiven, Given};
ghost use Rattle.operation.specs.Tables.{table_check};

use answers::refusal::Refusal;
use sheet::opcode::read_sheet;
use strings::table::StringTable;

// Reads the sheet into empty tables, and answers its largest opcode; a malformed one, 1, leaves them zero.
fn read_tables(
    sheet: &[u8],
    types: &mut [[u8; 8]; 256],
    ops: &mut [[usize; 4]; 256],
) -> Result<usize, Refusal>
    requires { (types.old ≡ no_type_rows) × (ops.old ≡ no_info_rows) }
    ensures { SheetGiven sheet.now types.old ops.old types.new ops.new result }
{
    let read = read_sheet(sheet, types, ops)?;
    Ok(read.largest)
}

// Looks at a string table: 18, then 17 by entry.
pub fn check_table(strings: StringTable<'_>) -> Result<(), Refusal>
    ensures { result ≡ table_check strings.entry.bytes.now strings.entry.ends.now }
{
    if strings.too_large() {
        return Err(Refusal::TooLarge);
    }
    match strings.find_fault() {
        Some(id) => Err(Refusal::BadString(id)),
        None => Ok(()),
    }
}

// Looks at the string table, 18 and 17, which leave the tables as they were; then reads the sheet into the tables,
// which are empty, and answers its largest opcode.
pub fn read_inputs(
    sheet: &[u8],
    strings: StringTable<'_>,
    types: &mut [[u8; 8]; 256],
    ops: &mut [[usize; 4]; 256],
) -> Result<usize, Refusal>
    requires { (types.old ≡ no_type_rows) × (ops.old ≡ no_info_rows) }
    ensures { Given sheet.now strings.entry.bytes.now strings.entry.ends.now types.old ops.old types.new ops.new result }
{
    check_table(strings)?;
    read_tables(sheet, types, ops)
}
