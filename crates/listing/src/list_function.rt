// Listing one function of an area.
ghost use Rattle.std.specs.Prelude.{◌≡◌, [], ◌∷◌, length};
ghost use Rattle.answers.specs.Answers.{answer_report};
ghost use Rattle.answers.specs.Report.{cleared};
ghost use Rattle.answers.specs.Outcome.{Ended};
ghost use Rattle.spec_inputs.specs.Context.{context_from};
ghost use Rattle.spec_listing.specs.Operation as operation;
ghost use Rattle.operation.specs.Places.{located_of};
ghost use Rattle.listing.specs.Parts.{options_of};
ghost use Rattle.listing.specs.Functions.{area_of, function_under};

use crate::list::{list_under, refuse};
use crate::options::Options;
use answers::failure::Answer;
use operation::area::Area;
use operation::inputs::read_inputs;
use sheet::tables::Tables;
use slices::clearing::clear_entries;
use strings::table::StringTable;

// Lists a function under a sheet's tables: 20 and 18 of its body, then as a body.
fn function_under(
    options: Options,
    tables: Tables<'_>,
    last: usize,
    strings: StringTable<'_>,
    area: Area<'_>,
    id: usize,
    lent: usize,
    out: &mut [u8],
) -> Answer
    ensures { Ended (function_under (options_of options) area.entry.bytes.now (located_of area.entry.functions.now area.entry.bytes.now area.entry.base id) (context_from tables.entry.text.now tables.entry.types.now tables.entry.ops.now strings.entry.bytes.now strings.entry.ends.now) last) out.old (lent ∷ []) out.new (answer_report result) }
{
    match area.locate(id) {
        Ok(f) => {
            let body = slices::part::part_of(area.bytes, f.start, f.size);
            list_under(options, tables, last, strings, body, lent, out)
        }
        Err(x) => refuse(x, out),
    }
}

// Reads the sheet and lists a function.
fn function_given(
    options: Options,
    sheet: &[u8],
    strings: StringTable<'_>,
    area: Area<'_>,
    id: usize,
    lent: usize,
    out: &mut [u8],
) -> Answer
    ensures { Ended (operation.list_function (options_of options) sheet.now strings.entry.bytes.now strings.entry.ends.now (area_of area.entry.functions.now area.entry.bytes.now area.entry.base) id) out.old (lent ∷ []) out.new (answer_report result) }
{
    let mut types = [[0u8; 8]; 256];
    let mut ops = [[0usize; 4]; 256];
    match read_inputs(sheet, strings, &mut types, &mut ops) {
        Ok(last) => {
            let tables = Tables {
                text: sheet,
                types: &types,
                ops: &ops,
            };
            function_under(options, tables, last, strings, area, id, lent, out)
        }
        Err(x) => refuse(x, out),
    }
}

// Lists one function of an area.
pub fn list_function(
    options: Options,
    sheet: &[u8],
    strings: StringTable<'_>,
    area: Area<'_>,
    id: usize,
    out: &mut [u8],
    entries: &mut [u32],
) -> Answer
    ensures ended { Ended (operation.list_function (options_of options) sheet.now strings.entry.bytes.now strings.entry.ends.now (area_of area.entry.functions.now area.entry.bytes.now area.entry.base) id) out.old (length entries.old ∷ []) out.new (answer_report result) }
    ensures entries_after { entries.new ≡ cleared 0 entries.old }
{
    clear_entries(entries);
    function_given(options, sheet, strings, area, id, entries.len(), out)
}
