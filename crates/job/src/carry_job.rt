// A job that carries a body to another sheet and string table: the result is printed in hex.
ghost use Rattle.std.specs.Prelude.{◌≡◌, List, [], ◌∷◌, ℕ, ◌≤◌, length, get_or};
ghost use Rattle.limits.specs.Limits.{job_limit, body_limit, job_string_limit, job_labels};
ghost use Rattle.answers.specs.Answers.{answer_report};
ghost use Rattle.answers.specs.Outcome.{Ended};
ghost use Rattle.spec_sheet.specs.Line.{Op};
ghost use Rattle.spec_sheet.specs.Sheet.{type_rows, info_rows, largest};
ghost use Rattle.spec_job.specs.Job.{with_body, with_second};
ghost use Rattle.spec_job.specs.Job.JobRead.{carry_job};
ghost use Rattle.spec_job.specs.Printed.{carry_under, body_text, printed_of, printed_job};
ghost use Rattle.strings.specs.Keys.{text_space};
ghost use Rattle.carry.specs.Ready.{ZerosBehind};
ghost use Rattle.job.specs.Prints.{Prints};

use crate::printed::{put_answer, refused};
use crate::reader::{
    HEX_BYTES, Inputs, MOST_LABELS, MOST_OUTPUT, MOST_STRINGS, body_at, inputs_at,
};
use answers::failure::{Answer, Failure};
use answers::report::Numbers;
use carry::edition::Opened;
use carry::inputs::check_tables;
use sheet::tables::Tables;
use slices::clearing::clear;
use slices::space::zeroed;
use strings::table::StringTable;
use strings::text_index::{FEW_INDEX, FEW_STRINGS, SOME_INDEX};

// Carries the body of a job whose lines are in order: 17 of both tables, then as carrying a body. The names of both sheets are
// parts of the job. The program lends 4,096 label entries; `ids` and `index` are work space.
fn carry_inputs(
    first: Inputs<'_>,
    second: Inputs<'_>,
    body: &[u8],
    ids: &mut [u32],
    index: &mut [u32],
    out: &mut [u8],
) -> Answer
    requires one_job { second.tables.text.now ≡ first.tables.text.now }
    requires body_len_bound { (length body.now ≤ body_limit) × (length second.strings.ends.now ≤ job_string_limit) }
    requires ids_len { (length ids.old ≡ length first.strings.ends.now) × (text_space (length second.strings.ends.now) ≤ length index.old) }
    requires by_index { ((op : ℕ) → ZerosBehind (get_or first.tables.types.now op [])) × ((op : ℕ) → ZerosBehind (get_or second.tables.types.now op [])) }
    ensures ended { (os os₂ : List Op) → first.entry.tables.types.now ≡ type_rows os → first.entry.tables.ops.now ≡ info_rows os → first.entry.read.largest ≡ largest os → second.entry.tables.types.now ≡ type_rows os₂ → second.entry.tables.ops.now ≡ info_rows os₂ → Ended (carry_under first.entry.tables.text.now (record { opcodes = os; bytes = first.entry.strings.bytes.now; ends = first.entry.strings.ends.now }) (record { opcodes = os₂; bytes = second.entry.strings.bytes.now; ends = second.entry.strings.ends.now }) body.now) out.old (job_labels ∷ []) out.new (answer_report result) }
    ensures result_in_bounds { (answer_report result).length ≤ length out.old }
{
    if let Err(x) = check_tables(body, first.strings, second.strings) {
        clear(out, 0);
        return Err(Failure::Refused(x));
    }
    carry::carry::carry_within(
        Opened {
            tables: first.tables,
            strings: first.strings,
        },
        first.read.largest,
        Opened {
            tables: second.tables,
            strings: second.strings,
        },
        body,
        MOST_LABELS,
        ids,
        index,
        out,
    )
}

// Prints what a body is carried to.
fn print_carried(
    first: Inputs<'_>,
    second: Inputs<'_>,
    body: &[u8],
    ids: &mut [u32],
    index: &mut [u32],
    text: &mut [u8],
) -> usize
    requires one_job { second.tables.text.now ≡ first.tables.text.now }
    requires body_len_bound { (length body.now ≤ body_limit) × (length second.strings.ends.now ≤ job_string_limit) }
    requires ids_len { (length ids.old ≡ length first.strings.ends.now) × (text_space (length second.strings.ends.now) ≤ length index.old) }
    requires by_index { ((op : ℕ) → ZerosBehind (get_or first.tables.types.now op [])) × ((op : ℕ) → ZerosBehind (get_or second.tables.types.now op [])) }
    ensures { (os os₂ : List Op) → first.entry.tables.types.now ≡ type_rows os → first.entry.tables.ops.now ≡ info_rows os → first.entry.read.largest ≡ largest os → second.entry.tables.types.now ≡ type_rows os₂ → second.entry.tables.ops.now ≡ info_rows os₂ → Prints (printed_of body_text (carry_under first.entry.tables.text.now (record { opcodes = os; bytes = first.entry.strings.bytes.now; ends = first.entry.strings.ends.now }) (record { opcodes = os₂; bytes = second.entry.strings.bytes.now; ends = second.entry.strings.ends.now }) body.now)) text.old text.new result }
{
    let mut out = zeroed::<u8, MOST_OUTPUT>(0);
    let answer = carry_inputs(first, second, body, ids, index, &mut out);
    put_answer(true, Numbers::from(answer), &out, text)
}

// The same with space that is made here, little of it where both tables have few strings together. Two calls keep the arrays of
// carrying out of the frame that the program's other jobs stand on.
fn print_in_space(first: Inputs<'_>, second: Inputs<'_>, body: &[u8], text: &mut [u8]) -> usize
    requires one_job { second.tables.text.now ≡ first.tables.text.now }
    requires body_len_bound { (length body.now ≤ body_limit) × (length first.strings.ends.now ≤ job_string_limit) × (length second.strings.ends.now ≤ job_string_limit) }
    requires by_index { ((op : ℕ) → ZerosBehind (get_or first.tables.types.now op [])) × ((op : ℕ) → ZerosBehind (get_or second.tables.types.now op [])) }
    ensures { (os os₂ : List Op) → first.entry.tables.types.now ≡ type_rows os → first.entry.tables.ops.now ≡ info_rows os → first.entry.read.largest ≡ largest os → second.entry.tables.types.now ≡ type_rows os₂ → second.entry.tables.ops.now ≡ info_rows os₂ → Prints (printed_of body_text (carry_under first.entry.tables.text.now (record { opcodes = os; bytes = first.entry.strings.bytes.now; ends = first.entry.strings.ends.now }) (record { opcodes = os₂; bytes = second.entry.strings.bytes.now; ends = second.entry.strings.ends.now }) body.now)) text.old text.new result }
{
    let n = first.strings.ends.len();
    if n + second.strings.ends.len() <= FEW_STRINGS {
        let mut ids = zeroed::<u32, FEW_STRINGS>(0);
        let mut index = zeroed::<u32, FEW_INDEX>(0);
        return print_carried(first, second, body, &mut ids[0..n], &mut index, text);
    }
    let mut ids = zeroed::<u32, MOST_STRINGS>(0);
    let mut index = zeroed::<u32, SOME_INDEX>(0);
    print_carried(first, second, body, &mut ids[0..n], &mut index, text)
}

// Prints what the job's body is carried to. It stands behind the second inputs.
fn print_body(first: Inputs<'_>, second: Inputs<'_>, text: &mut [u8]) -> usize
    requires one_job { second.tables.text.now ≡ first.tables.text.now }
    requires job_len_bound { (length first.tables.text.now ≤ job_limit) × (second.read.line ≤ job_limit) × (length first.strings.ends.now ≤ job_string_limit) × (length second.strings.ends.now ≤ job_string_limit) }
    requires by_index { ((op : ℕ) → ZerosBehind (get_or first.tables.types.now op [])) × ((op : ℕ) → ZerosBehind (get_or second.tables.types.now op [])) }
    ensures { (os os₂ : List Op) → first.entry.tables.types.now ≡ type_rows os → first.entry.tables.ops.now ≡ info_rows os → first.entry.read.largest ≡ largest os → second.entry.tables.types.now ≡ type_rows os₂ → second.entry.tables.ops.now ≡ info_rows os₂ → Prints (printed_job first.entry.tables.text.now (with_body first.entry.tables.text.now second.entry.read.end second.entry.read.line (carry_job (record { opcodes = os; bytes = first.entry.strings.bytes.now; ends = first.entry.strings.ends.now }) (record { opcodes = os₂; bytes = second.entry.strings.bytes.now; ends = second.entry.strings.ends.now })))) text.old text.new result }
{
    let mut body = zeroed::<u8, HEX_BYTES>(0);
    let read = body_at(
        first.tables.text,
        second.read.end,
        second.read.line,
        &mut body,
    );
    match read {
        Ok(n) => print_in_space(first, second, &body[0..n], text),
        Err(x) => refused(text, x),
    }
}

// Prints what the job's body is carried to, from the inputs that were read to those that stand behind them. The first inputs start
// on line 2 and have at most 4,355 lines, so that the second start on line 4,357 at most.
pub(crate) fn print_carry(first: Inputs<'_>, text: &mut [u8]) -> usize
    requires job_len_bound { (length first.tables.text.now ≤ job_limit) × (first.read.line ≤ 4357) × (length first.strings.ends.now ≤ job_string_limit) }
    requires by_index { ((op : ℕ) → ZerosBehind (get_or first.tables.types.now op [])) }
    ensures { (os : List Op) → first.entry.tables.types.now ≡ type_rows os → first.entry.tables.ops.now ≡ info_rows os → first.entry.read.largest ≡ largest os → Prints (printed_job first.entry.tables.text.now (with_second first.entry.tables.text.now first.entry.read.end first.entry.read.line (record { opcodes = os; bytes = first.entry.strings.bytes.now; ends = first.entry.strings.ends.now }))) text.old text.new result }
{
    let job = first.tables.text;
    let mut types = [[0u8; 8]; 256];
    let mut ops = [[0usize; 4]; 256];
    let mut bytes = zeroed::<u8, HEX_BYTES>(0);
    let mut ends = zeroed::<u32, MOST_STRINGS>(0);
    let inputs = inputs_at(
        job,
        first.read.end,
        first.read.line,
        &mut types,
        &mut ops,
        &mut bytes,
        &mut ends,
    );
    match inputs {
        Ok(read) => {
            let second = Inputs {
                read,
                tables: Tables {
                    text: job,
                    types: &types,
                    ops: &ops,
                },
                strings: StringTable {
                    bytes: &bytes[0..read.size],
                    ends: &ends[0..read.count],
                },
            };
            print_body(first, second, text)
        }
        Err(x) => refused(text, x),
    }
}
