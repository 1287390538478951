// One line of the pass over names and labels.
ghost use Rattle.std.specs.Prelude.{List, ℕ, ◌+◌, ◌≤◌, length};
ghost use Rattle.limits.specs.Limits.{line_limit};
ghost use Rattle.hasm_labels.specs.Sources.{context_of};
ghost use Rattle.hasm_labels.specs.Holding.{Small};
ghost use Rattle.hasm_labels.specs.Going.{CodeTaken, LineAt, Going, Turned};

use crate::hold_label::{LabelPart, Progress, hold_label};
use crate::instruction_name::read_name;
use crate::label_entry::Slot;
use crate::source::Source;
use answers::refusal::Refusal;
use hasm_read::lines::line_of;
use hasm_read::statement::{Statement, read_statement};

// The instruction s on line n takes the label that waits.
fn take_code(
    s: &[u8],
    n: usize,
    source: Source<'_>,
    labels: &mut [Slot],
    t: &[u8],
    p: Progress,
) -> Result<Progress, Refusal>
    requires { (length s.now ≤ line_limit) × Small p }
    ensures { (bytes ends : List ℕ) → CodeTaken (context_of source.entry bytes ends) n s.now source.entry.text.now t.now labels.old p labels.new result }
{
    let size = read_name(s, n, source)?;
    let q = hold_label(source.text, labels, t, p);
    Ok(Progress {
        waiting: None,
        offset: q.offset + size,
        ..q
    })
}

// Line n, from `at` to its end: a label waits from here on, and an instruction takes the one that does. Answers how far the pass
// has come behind it, or the line's refusal, 4 or 5.
pub(crate) fn take_line(
    source: Source<'_>,
    at: usize,
    end: usize,
    n: usize,
    labels: &mut [Slot],
    t: &[u8],
    p: Progress,
) -> Result<Progress, Refusal>
    requires { LineAt source.text.now at end p }
    ensures { (bytes ends : List ℕ) (slots : List (List ℕ)) (g : Going (context_of source.entry bytes ends) source.entry.text.now t.now slots at n p labels.old) → Turned (context_of source.entry bytes ends) source.entry.text.now t.now slots p g.taken (end + 1) n result labels.new }
{
    let line = line_of(source.text, at, end);
    match read_statement(line, source.names()) {
        Statement::Nothing => Ok(p),
        Statement::Label(a, size) => Ok(Progress {
            waiting: Some(LabelPart {
                start: at + a,
                size,
            }),
            ..p
        }),
        Statement::Instruction(a, b) => take_code(&line[a..b], n, source, labels, t, p),
    }
}
