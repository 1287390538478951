// A job that assembles a text: its body is printed in hex.
ghost use Rattle.std.specs.Prelude.{◌≡◌, List, [], ◌∷◌, ◌≤◌, length};
ghost use Rattle.limits.specs.Limits.{job_limit, job_string_limit, job_labels};
ghost use Rattle.spec_sheet.specs.Line.{Op};
ghost use Rattle.spec_sheet.specs.Sheet.{type_rows, info_rows};
ghost use Rattle.spec_job.specs.Job.{with_text};
ghost use Rattle.spec_job.specs.Printed.{assemble_under, printed_job};
ghost use Rattle.answers.specs.Answers.{answer_report};
ghost use Rattle.answers.specs.Outcome.{Ended};
ghost use Rattle.job.specs.Prints.{Prints};

use crate::printed::{put_answer, refused};
use crate::reader::{Inputs, MOST_LABELS, MOST_OUTPUT, text_at};
use answers::failure::{Answer, Failure};
use answers::report::Numbers;
use hasm_labels::label_entry::Slot;
use operation::inputs::check_table;
use slices::clearing::clear;
use slices::space::zeroed;
use strings::text_index::SOME_INDEX;

// Assembles the text of a job whose lines are in order: 17, then as assembling a text, which asks for no largest opcode. A job has no
// more than SOME_STRINGS strings. The program lends 4,096 label entries.
fn assemble_inputs(inputs: Inputs<'_>, source: &[u8], out: &mut [u8]) -> Answer
    requires { (length source.now ≤ job_limit) × (length inputs.strings.ends.now ≤ job_string_limit) }
    ensures ended { (os : List Op) → inputs.entry.tables.types.now ≡ type_rows os → inputs.entry.tables.ops.now ≡ info_rows os → Ended (assemble_under inputs.entry.tables.text.now (record { opcodes = os; bytes = inputs.entry.strings.bytes.now; ends = inputs.entry.strings.ends.now }) source.now) out.old (job_labels ∷ []) out.new (answer_report result) }
    ensures result_in_bounds { (answer_report result).length ≤ length out.old }
{
    if let Err(x) = check_table(inputs.strings) {
        clear(out, 0);
        return Err(Failure::Refused(x));
    }
    let mut ids = zeroed::<u32, SOME_INDEX>(0);
    let mut labels = zeroed::<Slot, MOST_LABELS>([0; 3]);
    assemble::passes::assemble_under(
        &mut ids,
        inputs.tables,
        inputs.strings,
        source,
        out,
        &mut labels,
    )
}

// Prints the body that the job's text is assembled to, under the inputs that were read before it. The line `text=` stands
// behind them.
pub(crate) fn print_assembled(inputs: Inputs<'_>, text: &mut [u8]) -> usize
    requires { (length inputs.tables.text.now ≤ job_limit) × (length inputs.strings.ends.now ≤ job_string_limit) }
    ensures { (os : List Op) → inputs.entry.tables.types.now ≡ type_rows os → inputs.entry.tables.ops.now ≡ info_rows os → Prints (printed_job inputs.entry.tables.text.now (with_text inputs.entry.tables.text.now inputs.entry.read.end inputs.entry.read.line (record { opcodes = os; bytes = inputs.entry.strings.bytes.now; ends = inputs.entry.strings.ends.now }))) text.old text.new result }
{
    let job = inputs.tables.text;
    match text_at(job, inputs.read.end, inputs.read.line) {
        Ok(start) => {
            let mut out = zeroed::<u8, MOST_OUTPUT>(0);
            let answer = assemble_inputs(inputs, &job[start..], &mut out);
            put_answer(true, Numbers::from(answer), &out, text)
        }
        Err(x) => refused(text, x),
    }
}
