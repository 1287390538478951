// The passes over a text, in document 01's order: 3 and 2, then 4 and 5, then 6 to 12, then 18 and 19.
ghost use Rattle.std.specs.Prelude.{◌≡◌, [], ◌∷◌, ◌≤◌, length};
ghost use Rattle.answers.specs.Answers.{answer_report};
ghost use Rattle.answers.specs.Report.{cleared};
ghost use Rattle.answers.specs.Outcome.{Ended};
ghost use Rattle.operation.specs.Ends.{left_by};
ghost use Rattle.limits.specs.Limits.{text_limit};
ghost use Rattle.spec_hasm.specs.Text.{lines_of};
ghost use Rattle.spec_hasm.specs.Assemble.{Assembled, unless_bad_line};
ghost use Rattle.strings.specs.Keys.{TextsIndexed};
ghost use Rattle.hasm_labels.specs.Sources.{context_of};
ghost use Rattle.assemble.specs.Contexts.{tables_context};
ghost use Rattle.assemble.specs.Passes.{text_outcome, IdSpace, IdsLeft, NamesGood};

use answers::failure::{Answer, Failure};
use hasm_labels::label_entry::Slot;
use hasm_labels::names_pass::{Taken, read_names};
use hasm_labels::source::Source;
use operation::ending::{measure, settle};
use sheet::name_index::NAME_INDEX;
use sheet::tables::Tables;
use slices::clearing::clear_labels;
use slices::space::zeroed;
use strings::table::StringTable;
use strings::text_index::{TextIndex, index_texts};

// Writes the instructions of a text whose lines and names are good, and measures them. The texts' index goes to `ids`.
fn put_indexed(
    ids: &mut [u32],
    source: Source<'_>,
    strings: StringTable<'_>,
    taken: Taken,
    slots: &[Slot],
    out: &mut [u8],
) -> Answer
    requires id_space { IdSpace ids.old strings.ends.now }
    requires names_good { NamesGood source taken slots.now × ((rest : Assembled) → unless_bad_line 1 (lines_of source.text.now) rest ≡ rest) }
    ensures ended { Ended (text_outcome (context_of source.entry strings.entry.bytes.now strings.entry.ends.now) source.entry.text.now) out.old (length slots.now ∷ []) (left_by result out.new) (answer_report result) }
    ensures texts_indexed { TextsIndexed strings.entry.bytes.now strings.entry.ends.now ids.new }
{
    index_texts(strings, ids);
    let texts = TextIndex {
        strings,
        index: ids,
    };
    let k = crate::listed::put_labelled(texts, source, slots, taken, out)?;
    measure(k, limits::BODY_LIMIT, taken.count, slots.len(), out)
}

// Reads the names of a text whose lines are good, which stores the long labels that fit, then writes its instructions. A name that is
// refused has cleared the label entries.
fn name_and_put(
    ids: &mut [u32],
    tables: Tables<'_>,
    strings: StringTable<'_>,
    text: &[u8],
    out: &mut [u8],
    labels: &mut [Slot],
) -> Answer
    requires id_space { IdSpace ids.old strings.ends.now × (length text.now ≤ text_limit) }
    requires rest_value { (rest : Assembled) → unless_bad_line 1 (lines_of text.now) rest ≡ rest }
    ensures ended { Ended (text_outcome (tables_context tables.entry strings.entry.bytes.now strings.entry.ends.now) text.now) out.old (length labels.old ∷ []) (left_by result out.new) (answer_report result) }
    ensures labels_after { labels.new ≡ cleared (0 ∷ 0 ∷ 0 ∷ []) labels.old }
    ensures ids_left { IdsLeft strings.entry.bytes.now strings.entry.ends.now ids.old ids.new }
{
    let mut names = zeroed::<u32, NAME_INDEX>(0);
    sheet::name_index::index_names(tables.text, tables.ops, &mut names);
    let source = Source {
        text,
        tables,
        names: &names,
    };
    match read_names(source, labels, b"L", &mut [], 0) {
        Ok(taken) => {
            let answer = put_indexed(ids, source, strings, taken, labels, out);
            clear_labels(labels);
            answer
        }
        Err(x) => Err(Failure::Refused(x)),
    }
}

// Assembles a text under the tables of a sheet. Where there is no result, the output still has to be cleared.
pub(crate) fn put_text(
    ids: &mut [u32],
    tables: Tables<'_>,
    strings: StringTable<'_>,
    text: &[u8],
    out: &mut [u8],
    labels: &mut [Slot],
) -> Answer
    requires { IdSpace ids.old strings.ends.now × (length text.now ≤ text_limit) }
    ensures ended { Ended (text_outcome (tables_context tables.entry strings.entry.bytes.now strings.entry.ends.now) text.now) out.old (length labels.old ∷ []) (left_by result out.new) (answer_report result) }
    ensures labels_after { labels.new ≡ cleared (0 ∷ 0 ∷ 0 ∷ []) labels.old }
    ensures ids_left { IdsLeft strings.entry.bytes.now strings.entry.ends.now ids.old ids.new }
{
    if let Err(x) = hasm_read::lines::check_lines(text) {
        clear_labels(labels);
        return Err(Failure::Refused(x));
    }
    name_and_put(ids, tables, strings, text, out, labels)
}

// Assembles a text under the tables of a sheet. The texts' index is left in `ids`; where a line or a name is refused, `ids` is left as
// it was.
pub fn assemble_under(
    ids: &mut [u32],
    tables: Tables<'_>,
    strings: StringTable<'_>,
    text: &[u8],
    out: &mut [u8],
    labels: &mut [Slot],
) -> Answer
    requires { IdSpace ids.old strings.ends.now × (length text.now ≤ text_limit) }
    ensures ended { Ended (text_outcome (tables_context tables.entry strings.entry.bytes.now strings.entry.ends.now) text.now) out.old (length labels.old ∷ []) out.new (answer_report result) }
    ensures labels_after { labels.new ≡ cleared (0 ∷ 0 ∷ 0 ∷ []) labels.old }
    ensures ids_left { IdsLeft strings.entry.bytes.now strings.entry.ends.now ids.old ids.new }
{
    let answer = put_text(ids, tables, strings, text, out, labels);
    settle(answer, out);
    answer
}
