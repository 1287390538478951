// A job that lists a body.
ghost use Rattle.std.specs.Prelude.{◌≡◌, List, [], ◌∷◌, ℕ, ◌≤◌, length};
ghost use Rattle.limits.specs.Limits.{job_limit, body_limit, job_labels};
ghost use Rattle.answers.specs.Answers.{answer_report};
ghost use Rattle.answers.specs.Outcome.{Ended};
ghost use Rattle.spec_sheet.specs.Line.{Op};
ghost use Rattle.spec_sheet.specs.Sheet.{type_rows, info_rows, largest};
ghost use Rattle.spec_job.specs.Job.{with_body};
ghost use Rattle.spec_job.specs.Job.JobRead.{list_job};
ghost use Rattle.spec_job.specs.Printed.{list_under, printed_of, printed_job};
ghost use Rattle.job.specs.Prints.{Prints};

use crate::printed::{put_answer, refused};
use crate::reader::{HEX_BYTES, Inputs, MOST_LABELS, MOST_OUTPUT, body_at};
use answers::failure::{Answer, Failure};
use answers::report::Numbers;
use listing::options::Options;
use operation::inputs::check_table;
use slices::clearing::clear;
use slices::space::zeroed;

// Lists the body of a job whose lines are in order: 17, then as listing a body. The program lends 4,096 label entries.
fn list_inputs(inputs: Inputs<'_>, body: &[u8], out: &mut [u8]) -> Answer
    requires { length body.now ≤ body_limit }
    ensures ended { (os : List Op) → inputs.entry.tables.types.now ≡ type_rows os → inputs.entry.tables.ops.now ≡ info_rows os → inputs.entry.read.largest ≡ largest os → Ended (list_under inputs.entry.tables.text.now (record { opcodes = os; bytes = inputs.entry.strings.bytes.now; ends = inputs.entry.strings.ends.now }) body.now) out.old (job_labels ∷ []) out.new (answer_report result) }
    ensures result_in_bounds { (answer_report result).length ≤ length out.old }
{
    if let Err(x) = check_table(inputs.strings) {
        clear(out, 0);
        return Err(Failure::Refused(x));
    }
    let options = Options {
        show_offsets: true,
        show_labels: true,
        resolve_strings: true,
    };
    listing::list::list_under(
        options,
        inputs.tables,
        inputs.read.largest,
        inputs.strings,
        body,
        MOST_LABELS,
        out,
    )
}

// Prints the listing of a body.
fn print_listing(inputs: Inputs<'_>, body: &[u8], text: &mut [u8]) -> usize
    requires { length body.now ≤ body_limit }
    ensures { (os : List Op) → inputs.entry.tables.types.now ≡ type_rows os → inputs.entry.tables.ops.now ≡ info_rows os → inputs.entry.read.largest ≡ largest os → Prints (printed_of (λ (t : List ℕ). t) (list_under inputs.entry.tables.text.now (record { opcodes = os; bytes = inputs.entry.strings.bytes.now; ends = inputs.entry.strings.ends.now }) body.now)) text.old text.new result }
{
    let mut out = zeroed::<u8, MOST_OUTPUT>(0);
    let answer = list_inputs(inputs, body, &mut out);
    put_answer(false, Numbers::from(answer), &out, text)
}

// Prints the listing of the job's body, which stands behind the inputs that were read.
pub(crate) fn print_list(inputs: Inputs<'_>, text: &mut [u8]) -> usize
    requires { (length inputs.tables.text.now ≤ job_limit) × (inputs.read.line ≤ job_limit) }
    ensures { (os : List Op) → inputs.entry.tables.types.now ≡ type_rows os → inputs.entry.tables.ops.now ≡ info_rows os → inputs.entry.read.largest ≡ largest os → Prints (printed_job inputs.entry.tables.text.now (with_body inputs.entry.tables.text.now inputs.entry.read.end inputs.entry.read.line (list_job (record { opcodes = os; bytes = inputs.entry.strings.bytes.now; ends = inputs.entry.strings.ends.now })))) text.old text.new result }
{
    let mut body = zeroed::<u8, HEX_BYTES>(0);
    let read = body_at(
        inputs.tables.text,
        inputs.read.end,
        inputs.read.line,
        &mut body,
    );
    match read {
        Ok(n) => print_listing(inputs, &body[0..n], text),
        Err(x) => refused(text, x),
    }
}
