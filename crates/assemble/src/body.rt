// All instructions of a text as bytes.
ghost use Rattle.std.specs.Prelude.{◌≤◌, length};
ghost use Rattle.limits.specs.Limits.{line_limit};
ghost use Rattle.assemble.specs.Contexts.{text_in, under, bytes_of};
ghost use Rattle.assemble.specs.Bodies.{BytesPut};

use crate::context::Context;
use crate::instruction::{Span, put_line};
use crate::operands::Place;
use answers::refusal::Refusal;

// Writes the instructions of a text whose lines are short and whose names are good. Answers the length of the body, or the refusal of
// an operand, 6 to 12.
pub(crate) fn put_instructions(
    context: Context<'_>,
    work: &mut [u8],
    out: &mut [u8],
) -> Result<usize, Refusal>
    requires { line_limit ≤ length work.old }
    ensures { BytesPut (bytes_of (under context.entry) (text_in context.entry)) out.old out.new result }
{
    let text = context.labels.source.text;
    let mut place = Place { offset: 0, k: 0 };
    // A line's end says where the next one starts, so the places are followed and not counted.
    let mut at: usize = 0;
    let mut n: usize = 1;
    while at < text.len() {
        let end = hasm_read::lines::line_end(text, at);
        place = put_line(context, Span { at, end }, place, work, out).map_err(
            |bad| Refusal::BadOperand(bad.fault, n, bad.operand),
        )?;
        at = end + 1;
        n += 1;
    }
    Ok(place.k)
}
