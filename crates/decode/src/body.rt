// A body into records: decode_function_instructions of instructions.rs.
ghost use Rattle.std.specs.Prelude.{◌≡◌, List, ◌++◌, ℕ, ◌+◌, ◌*◌, ◌≤◌, length, drop};
ghost use Rattle.spec_sheet.specs.Row.{length_of};
ghost use Rattle.spec_body.specs.Record.{record_of, join};
ghost use Rattle.spec_body.specs.Decode.{decode_body};
ghost use Rattle.spec_body.specs.Decode.Decoded.{decoded};
ghost use Rattle.decode.specs.Bodies.{stored_at, body_answer};
ghost use Rattle.decode.specs.Tables.{PlanOf};

use crate::record::Instruction;
use crate::tables::LENGTH;
use answers::refusal::Refusal;
use slices::widen::byte_index;

// Writes the record of an instruction as the n-th, where there is room for it.
fn store_record(out: &mut [u64], n: usize, instruction: &Instruction<'_>)
    ensures { out.new ≡ stored_at out.old n (record_of instruction.now.row instruction.now.body.now instruction.now.at) }
{
    if n < out.len() / 20 {
        instruction.put_record(out, n * 20);
    }
}

// One pass over a body: every record is written where it fits, and all are counted; or 13 or 14 at an instruction.
pub(crate) fn decode_body(
    types: &[[u8; 8]; 256],
    last: usize,
    s: &[u8],
    out: &mut [u64],
) -> Result<usize, Refusal>
    ensures value { result ≡ body_answer (decode_body types.now last s.now) }
    ensures by_index { (rs : List (List ℕ)) → decode_body types.now last s.now ≡ decoded rs → (length (join rs) ≡ 20 * length rs) × (20 * length rs ≤ length out.old → out.new ≡ join rs ++ drop (20 * length rs) out.old) }
{
    let plans = crate::tables::plan_rows(types, last);
    let mut n: usize = 0;
    let mut at: usize = 0;
    while at < s.len() {
        let op = s[at] as usize;
        if last < op {
            return Err(Refusal::Beyond(at));
        }
        let row = types[op];
        let plan = &plans[op];
        let size = byte_index(plan[LENGTH]);
        if s.len() - at < size {
            return Err(Refusal::Cut(at));
        }
        let instruction = Instruction {
            row,
            plan,
            body: s,
            at,
        };
        store_record(out, n, &instruction);
        at += size;
        n += 1;
    }
    Ok(n)
}
