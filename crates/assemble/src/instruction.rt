// One instruction of a text as bytes.
ghost use Rattle.std.specs.Prelude.{◌≡◌, List, ℕ, ◌+◌, ◌≤◌, ◌<◌, length};
ghost use Rattle.limits.specs.Limits.{line_limit};
ghost use Rattle.assemble.specs.Contexts.{text_in, under, labels_under};
ghost use Rattle.assemble.specs.BodyPuts.{InstructionPut};
ghost use Rattle.assemble.specs.Going.{Going, LineAt, Turned};

use crate::context::Context;
use crate::operands::{BadOperand, Place};
use hasm_read::statement::Statement;
use slices::write::put_byte;

// A line by where it starts in the text, and where it ends.
#[derive(Clone, Copy)]
pub struct Span {
    pub at: usize,
    pub end: usize,
}

// Writes the instruction whose name and operands are s at its place. Names that the sheet lacks are refused before.
pub(crate) fn put_instruction(
    context: Context<'_>,
    s: &[u8],
    place: Place,
    work: &mut [u8],
    out: &mut [u8],
) -> Result<Place, BadOperand>
    requires work_long { (length s.now ≤ line_limit) × (line_limit ≤ length work.old) }
    requires offset_bound { place.offset < 2147483648 }
    ensures { InstructionPut (under context.entry) (labels_under context.entry) s.now place out.old out.new result }
{
    let source = context.labels.source;
    let n = hasm_read::white_space::word_end(s, 0);
    let opcode = source.names().find(&s[..n]).unwrap_or(0);
    // An opcode that was found has a row. Lent as a slice, the array tells the proof that there are 256 rows.
    let ops = source.tables.ops;
    let _rows: &[[usize; 4]] = ops;
    let row = source.tables.types[opcode];
    let a = hasm_read::white_space::white_end(s, n);
    let b = put_byte(out, place.k, opcode as u8);
    let operands = Place {
        offset: place.offset,
        k: b,
    };
    let next = crate::operands::put_operands(context, &s[a..], row, operands, work, out)?;
    Ok(Place {
        offset: place.offset + sheet::row::instruction_length(row),
        k: next,
    })
}

// Writes a line, if it is an instruction. Answers the place behind it.
pub(crate) fn put_line(
    context: Context<'_>,
    span: Span,
    place: Place,
    work: &mut [u8],
    out: &mut [u8],
) -> Result<Place, BadOperand>
    requires work_long { line_limit ≤ length work.old }
    requires line_at { LineAt (text_in context) span.at span.end place.offset }
    ensures { (out₀ : List ℕ) (n : ℕ) → Going (under context.entry) (labels_under context.entry) (text_in context.entry) out₀ out.old span.at n place → Turned (under context.entry) (labels_under context.entry) (text_in context.entry) out₀ out.new (span.end + 1) n place result }
{
    let source = context.labels.source;
    let line = hasm_read::lines::line_of(source.text, span.at, span.end);
    match hasm_read::statement::read_statement(line, source.names()) {
        Statement::Instruction(a, b) => put_instruction(context, &line[a..b], place, work, out),
        Statement::Nothing | Statement::Label(_, _) => Ok(place),
    }
}
