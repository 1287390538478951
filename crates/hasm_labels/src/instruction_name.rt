// The name of an instruction and how many operands it has.
ghost use Rattle.std.specs.Prelude.{List, ℕ, ◌≤◌, length};
ghost use Rattle.limits.specs.Limits.{line_limit};
ghost use Rattle.hasm_labels.specs.Sources.{context_of};
ghost use Rattle.hasm_labels.specs.NameReads.{NameRead};

use crate::source::Source;
use answers::refusal::Refusal;
use hasm_read::commas::count_operands;
use hasm_read::white_space::{white_end, word_end};

// The length of the instruction s on line n, by its name; or that the sheet has no such name (4), or gives it another number of
// operands (5).
pub(crate) fn read_name(s: &[u8], n: usize, source: Source<'_>) -> Result<usize, Refusal>
    requires { length s.now ≤ line_limit }
    ensures { (bytes ends : List ℕ) → NameRead (context_of source.entry bytes ends) n s.now result }
{
    let k = word_end(s, 0);
    let Some(opcode) = source.names().find(&s[..k]) else {
        return Err(Refusal::UnknownName(n));
    };
    // An opcode that was found has a row. Lent as a slice, the array tells the proof that there are 256 rows.
    let ops = source.tables.ops;
    let _rows: &[[usize; 4]] = ops;
    let row = source.tables.types[opcode];
    let a = white_end(s, k);
    let given = count_operands(&s[a..]);
    if given as u64 != sheet::row::operand_count(row) {
        return Err(Refusal::OperandCount(n));
    }
    Ok(sheet::row::instruction_length(row))
}
