// Listing a whole module.
ghost use Rattle.std.specs.Prelude.{◌≡◌, [], ◌∷◌, ◌+◌, min, length};
ghost use Rattle.limits.specs.Limits.{listing_limit};
ghost use Rattle.answers.specs.Answers.{answer_report};
ghost use Rattle.answers.specs.Report.{cleared};
ghost use Rattle.answers.specs.Outcome.{Ended};
ghost use Rattle.operation.specs.Ends.{left_by};
ghost use Rattle.spec_listing.specs.Module.{list_all};
ghost use Rattle.spec_listing.specs.Operation as operation;
ghost use Rattle.spec_listing.specs.Operation.{list_outcome};
ghost use Rattle.spec_inputs.specs.Context.{context_from};
ghost use Rattle.listing.specs.Parts.{options_of};
ghost use Rattle.listing.specs.Listers.{context_by};
ghost use Rattle.listing.specs.Functions.{area_of};
ghost use Rattle.list_module.specs.Modules.{ModuleWritten};

use answers::failure::Answer;
use answers::refusal::Refusal;
use listing::body::{Part, Room};
use listing::lister::Lister;
use listing::options::Options;
use operation::area::Area;
use operation::ending::settle;
use sheet::tables::Tables;
use slices::clearing::clear_entries;
use strings::table::StringTable;

// The first position past the largest listing.
const PAST_LIMIT: usize = 1048577;

// A position that stays there once it is past the limit, so that a later function's can be counted.
fn capped(k: usize) -> usize
    ensures { result ≡ min k (listing_limit + 1) }
{
    k.min(PAST_LIMIT)
}

// Lists all functions by index, up to one that is refused. Label entries are used for one function at a time.
fn list_functions(
    lister: &Lister<'_>,
    area: Area<'_>,
    lent: usize,
    out: &mut [u8],
) -> Result<Part, Refusal>
    ensures { ModuleWritten lent (list_all (options_of lister.now.options) (context_by lister.now) lister.now.last (area_of area.entry.functions.now area.entry.bytes.now area.entry.base)) out.old out.new result }
{
    let mut at: usize = 0;
    let mut most: usize = 0;
    for id in 0..area.functions.len() / 3 {
        let room = Room { from: at, lent };
        let part = crate::function_part::list_located(lister, area, id, room, out)?;
        at = capped(part.next);
        most = most.max(part.entries);
    }
    Ok(Part {
        next: at,
        entries: most,
    })
}

// Lists a module under a sheet's tables: 18 and 19 of the whole come last. The output is left to settle.
fn module_under(
    options: Options,
    tables: Tables<'_>,
    last: usize,
    strings: StringTable<'_>,
    area: Area<'_>,
    lent: usize,
    out: &mut [u8],
) -> Answer
    ensures { Ended (list_outcome (list_all (options_of options) (context_from tables.entry.text.now tables.entry.types.now tables.entry.ops.now strings.entry.bytes.now strings.entry.ends.now) last (area_of area.entry.functions.now area.entry.bytes.now area.entry.base))) out.old (lent ∷ []) (left_by result out.new) (answer_report result) }
{
    let rows = list_labels::opcode_rows::opcode_rows(tables, last);
    let lister = Lister {
        options,
        tables,
        strings,
        rows: &rows,
        last,
    };
    let part = list_functions(&lister, area, lent, out)?;
    operation::ending::fitting(
        part.next,
        limits::LISTING_LIMIT,
        part.entries,
        lent,
        out.len(),
    )
}

// Reads the sheet and lists a module. The output is left to settle.
fn module_given(
    options: Options,
    sheet: &[u8],
    strings: StringTable<'_>,
    area: Area<'_>,
    lent: usize,
    out: &mut [u8],
) -> Answer
    ensures { Ended (operation.list_module (options_of options) sheet.now strings.entry.bytes.now strings.entry.ends.now (area_of area.entry.functions.now area.entry.bytes.now area.entry.base)) out.old (lent ∷ []) (left_by result out.new) (answer_report result) }
{
    let mut types = [[0u8; 8]; 256];
    let mut ops = [[0usize; 4]; 256];
    let last = operation::inputs::read_inputs(sheet, strings, &mut types, &mut ops)?;
    let tables = Tables {
        text: sheet,
        types: &types,
        ops: &ops,
    };
    module_under(options, tables, last, strings, area, lent, out)
}

// Lists all functions of an area.
pub fn list_module(
    options: Options,
    sheet: &[u8],
    strings: StringTable<'_>,
    area: Area<'_>,
    out: &mut [u8],
    entries: &mut [u32],
) -> Answer
    ensures ended { Ended (operation.list_module (options_of options) sheet.now strings.entry.bytes.now strings.entry.ends.now (area_of area.entry.functions.now area.entry.bytes.now area.entry.base)) out.old (length entries.old ∷ []) out.new (answer_report result) }
    ensures entries_after { entries.new ≡ cleared 0 entries.old }
{
    clear_entries(entries);
    let answer = module_given(options, sheet, strings, area, entries.len(), out);
    settle(answer, out);
    answer
}
