// The inputs of carrying: their refusals in order, and both sheets' tables.
ghost use Rattle.std.specs.Prelude.{◌≡◌};
ghost use Rattle.answers.specs.Outcome.{Outcome};
ghost use Rattle.spec_sheet.specs.Sheet.{no_type_rows, no_info_rows};
ghost use Rattle.spec_carry.specs.Cases.{unless_case};
ghost use Rattle.spec_carry.specs.Carry.{table_cases};
ghost use Rattle.carry.specs.Inputs.{on_inputs, SheetsRead};

use answers::refusal::Refusal;
use sheet::opcode::read_sheet;
use strings::table::StringTable;

// Looks at the body and both string tables: 18 of each, then 17 of each.
pub fn check_tables(
    body: &[u8],
    strings: StringTable<'_>,
    strings2: StringTable<'_>,
) -> Result<(), Refusal>
    ensures { (rest : Outcome) → unless_case (table_cases body.now strings.entry.bytes.now strings.entry.ends.now strings2.entry.bytes.now strings2.entry.ends.now) rest ≡ on_inputs result rest }
{
    if limits::BODY_LIMIT < body.len() {
        return Err(Refusal::TooLarge);
    }
    if strings.too_large() {
        return Err(Refusal::TooLarge);
    }
    if strings2.too_large() {
        return Err(Refusal::TooLarge);
    }
    if let Some(id) = strings.find_fault() {
        return Err(Refusal::BadString(id));
    }
    if let Some(id) = strings2.find_fault() {
        return Err(Refusal::BadString(id));
    }
    Ok(())
}

// Reads both sheets into their tables, which are empty: the largest opcode of the first; or 1. The tables are parameters one by one,
// since arrays of type codes stand by value outside any struct (document 01's form).
pub(crate) fn read_sheets(
    sheet: &[u8],
    sheet2: &[u8],
    types: &mut [[u8; 8]; 256],
    ops: &mut [[usize; 4]; 256],
    types2: &mut [[u8; 8]; 256],
    ops2: &mut [[usize; 4]; 256],
) -> Result<usize, Refusal>
    requires { (types.old ≡ no_type_rows) × (ops.old ≡ no_info_rows) × (types2.old ≡ no_type_rows) × (ops2.old ≡ no_info_rows) }
    ensures { SheetsRead sheet.now sheet2.now types.new ops.new types2.new ops2.new result }
{
    let first = read_sheet(sheet, types, ops)?;
    read_sheet(sheet2, types2, ops2)?;
    Ok(first.largest)
}
