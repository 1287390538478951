// Assembling a text.
ghost use Rattle.std.specs.Prelude.{◌≡◌, [], ◌∷◌, ◌≤◌, length};
ghost use Rattle.answers.specs.Answers.{answer_report};
ghost use Rattle.answers.specs.Report.{cleared};
ghost use Rattle.answers.specs.Outcome.{Ended};
ghost use Rattle.limits.specs.Limits.{text_limit};
ghost use Rattle.operation.specs.Ends.{left_by};
ghost use Rattle.spec_hasm.specs.Operation as operation;
ghost use Rattle.assemble.specs.Passes.{IdSpace};

use crate::passes::put_text;
use answers::failure::{Answer, Failure};
use answers::refusal::Refusal;
use hasm_labels::label_entry::Slot;
use operation::ending::settle;
use operation::inputs::read_inputs;
use sheet::tables::Tables;
use slices::clearing::clear_labels;
use slices::space::with_words;
use strings::table::StringTable;
use strings::text_index::{ALL_INDEX, FEW_INDEX, SOME_INDEX};

// Assembles a text under a sheet given as text and a string table. A label entry is lent for each label that is taken, and all are clear
// behind it.
fn assemble_given(
    sheet: &[u8],
    strings: StringTable<'_>,
    text: &[u8],
    out: &mut [u8],
    labels: &mut [Slot],
) -> Answer
    ensures ended { Ended (operation.assemble sheet.now strings.entry.bytes.now strings.entry.ends.now text.now) out.old (length labels.old ∷ []) (left_by result out.new) (answer_report result) }
    ensures labels_after { labels.new ≡ cleared (0 ∷ 0 ∷ 0 ∷ []) labels.old }
{
    if limits::TEXT_LIMIT < text.len() {
        clear_labels(labels);
        return Err(Failure::Refused(Refusal::TooLarge));
    }
    let mut types = [[0u8; 8]; 256];
    let mut ops = [[0usize; 4]; 256];
    if let Err(x) = read_inputs(sheet, strings, &mut types, &mut ops) {
        clear_labels(labels);
        return Err(Failure::Refused(x));
    }
    let tables = Tables {
        text: sheet,
        types: &types,
        ops: &ops,
    };
    let mut put = |ids: &mut [u32]|
        requires { IdSpace ids.old strings.ends.now × (length text.now ≤ text_limit) }
    { put_text(ids, tables, strings, text, out, labels) };
    with_words::<FEW_INDEX, SOME_INDEX, ALL_INDEX, _, _>(strings.index_size(), &mut put)
}

// The same, after which the output is clear too where there is no result.
pub fn assemble(
    sheet: &[u8],
    strings: StringTable<'_>,
    text: &[u8],
    out: &mut [u8],
    labels: &mut [Slot],
) -> Answer
    ensures ended { Ended (operation.assemble sheet.now strings.entry.bytes.now strings.entry.ends.now text.now) out.old (length labels.old ∷ []) out.new (answer_report result) }
    ensures labels_after { labels.new ≡ cleared (0 ∷ 0 ∷ 0 ∷ []) labels.old }
{
    let answer = assemble_given(sheet, strings, text, out, labels);
    settle(answer, out);
    answer
}
