// The operands of an instruction.
ghost use Rattle.std.specs.Prelude.{◌^◌, ◌≤◌, ◌<◌, ◌+◌, min, ◌≡◌, length};
ghost use Rattle.limits.specs.Limits.{line_limit};
ghost use Rattle.spec_hasm.specs.Split.{split_outside, tokens};
ghost use Rattle.spec_hasm.specs.Assemble.{operands_from};
ghost use Rattle.assemble.specs.OperandPuts.{OperandsPut};
ghost use Rattle.assemble.specs.Contexts.{under, labels_under};

use crate::context::Context;
use crate::token_operand::operand_value;
use answers::refusal::OperandFault;

// What is wrong with an operand, and which one, counted from 1.
#[derive(Clone, Copy)]
pub struct BadOperand {
    pub fault: OperandFault,
    pub operand: usize,
}

// Where an instruction stands: its offset, and the place of its bytes in the output.
#[derive(Clone, Copy)]
pub struct Place {
    pub offset: usize,
    pub k: usize,
}

// The place behind the comma at `end`, or the end of the text.
fn behind_comma(end: usize, size: usize) -> usize
    requires { end ≤ size }
    ensures { result ≡ min (end + 1) size }
{
    if end < size { end + 1 } else { size }
}

// Writes the operands that stand in s, whose types are the row's, from `place` on. Answers the next place in the output.
pub(crate) fn put_operands(
    context: Context<'_>,
    s: &[u8],
    row: [u8; 8],
    place: Place,
    work: &mut [u8],
    out: &mut [u8],
) -> Result<usize, BadOperand>
    requires work_long { (length s.now ≤ line_limit) × (line_limit ≤ length work.old) }
    requires offset_bound { place.offset < 2 ^ 32 }
    ensures { OperandsPut (operands_from (under context.entry) (labels_under context.entry) place.offset 1 row (tokens (split_outside s.now))) out.old place.k out.new result }
{
    let offset = place.offset;
    let mut n = place.k;
    let mut p: usize = 0;
    for (i, &code) in row.iter().enumerate() {
        if code == 0 {
            return Ok(n);
        }
        let end = hasm_read::commas::comma_from(s, p);
        let t = hasm_read::white_space::trim(&s[p..end]);
        let bits = operand_value(context, t, code, offset, work).map_err(|fault| BadOperand {
            fault,
            operand: i + 1,
        })?;
        n = operand::write::put_value(out, n, code, bits);
        p = behind_comma(end, s.len());
    }
    Ok(n)
}
