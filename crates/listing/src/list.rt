// Listing a body.
ghost use Rattle.std.specs.Prelude.{◌≡◌, [], ◌∷◌, ◌≤◌, length};
ghost use Rattle.limits.specs.Limits.{body_limit};
ghost use Rattle.spec_body.specs.Decode.{decode_body};
ghost use Rattle.spec_listing.specs.Listing.{list_decoded};
ghost use Rattle.spec_listing.specs.Operation as operation;
ghost use Rattle.spec_listing.specs.Operation.{list_outcome};
ghost use Rattle.listing.specs.Parts.{options_of};
ghost use Rattle.spec_inputs.specs.Context.{context_from};
ghost use Rattle.answers.specs.Answers.{answer_report};
ghost use Rattle.answers.specs.declared.failure.Failure.TheVariants.{Refused};
ghost use Rattle.answers.specs.Report.{cleared, zeros};
ghost use Rattle.answers.specs.Outcome.{Ended};

use crate::body::Room;
use crate::lister::Lister;
use crate::options::Options;
use answers::failure::{Answer, Failure};
use answers::refusal::Refusal;
use operation::inputs::read_inputs;
use sheet::tables::Tables;
use slices::clearing::{clear, clear_entries};
use strings::table::StringTable;

// Refuses what is not listed at all, which leaves the output all zero.
pub(crate) fn refuse(x: Refusal, out: &mut [u8]) -> Answer
    ensures value { result ≡ Err (Refused x) }
    ensures out_after { out.new ≡ zeros out.old }
{
    clear(out, 0);
    Err(Failure::Refused(x))
}

// Lists a body under a sheet's tables, whose names are parts of their text. A body that is refused has cleared the output.
pub fn list_under(
    options: Options,
    tables: Tables<'_>,
    last: usize,
    strings: StringTable<'_>,
    s: &[u8],
    lent: usize,
    out: &mut [u8],
) -> Answer
    requires { length s.now ≤ body_limit }
    ensures { Ended (list_outcome (list_decoded (options_of options) (context_from tables.entry.text.now tables.entry.types.now tables.entry.ops.now strings.entry.bytes.now strings.entry.ends.now) [] (decode_body tables.entry.types.now last s.now))) out.old (lent ∷ []) out.new (answer_report result) }
{
    let rows = list_labels::opcode_rows::opcode_rows(tables, last);
    let lister = Lister {
        options,
        tables,
        strings,
        rows: &rows,
        last,
    };
    let part = crate::body::list_body(&lister, s, b"", Room { from: 0, lent }, out)?;
    operation::ending::measure(part.next, limits::LISTING_LIMIT, part.entries, lent, out)
}

// Reads the sheet and lists a body: 18 of the body, then the inputs' refusals.
fn list_given(
    options: Options,
    sheet: &[u8],
    strings: StringTable<'_>,
    body: &[u8],
    lent: usize,
    out: &mut [u8],
) -> Answer
    ensures { Ended (operation.list (options_of options) sheet.now strings.entry.bytes.now strings.entry.ends.now body.now) out.old (lent ∷ []) out.new (answer_report result) }
{
    if limits::BODY_LIMIT < body.len() {
        return refuse(Refusal::TooLarge, out);
    }
    let mut types = [[0u8; 8]; 256];
    let mut ops = [[0usize; 4]; 256];
    match read_inputs(sheet, strings, &mut types, &mut ops) {
        Ok(last) => {
            let tables = Tables {
                text: sheet,
                types: &types,
                ops: &ops,
            };
            list_under(options, tables, last, strings, body, lent, out)
        }
        Err(x) => refuse(x, out),
    }
}

// Lists a body under a sheet given as text and a string table.
pub fn list(
    options: Options,
    sheet: &[u8],
    strings: StringTable<'_>,
    body: &[u8],
    out: &mut [u8],
    entries: &mut [u32],
) -> Answer
    ensures ended { Ended (operation.list (options_of options) sheet.now strings.entry.bytes.now strings.entry.ends.now body.now) out.old (length entries.old ∷ []) out.new (answer_report result) }
    ensures entries_after { entries.new ≡ cleared 0 entries.old }
{
    clear_entries(entries);
    list_given(options, sheet, strings, body, entries.len(), out)
}
