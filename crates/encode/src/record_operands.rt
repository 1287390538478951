// A record's operands as bytes.
ghost use Rattle.std.specs.Prelude.{◌≡◌, true, ◌+◌, ◌*◌, ◌≤◌, length};
ghost use Rattle.spec_body.specs.Encode.{good_shape, encode_operands};
ghost use Rattle.encode.specs.RecordPlaces.{record_at, pairs_at};
ghost use Rattle.encode.specs.OperandsWritten.{Operanded};

use answers::refusal::{OperandFault, Refusal};

// Writes the operands of record i, whose shape is good, from position `from` on: the next position.
pub(crate) fn encode_operands(
    row: [u8; 8],
    words: &[u64],
    i: usize,
    out: &mut [u8],
    from: usize,
) -> Result<usize, Refusal>
    requires { (20 * i + 20 ≤ length words.now) × (good_shape (record_at words.now (20 * i)) ≡ true) }
    ensures { Operanded (encode_operands row (pairs_at words.now (20 * i)) 1) i out.old «from» out.new result }
{
    let mut k = from;
    for j in 0..8 {
        let c = row[j];
        if c == 0 {
            return Ok(k);
        }
        let p = 20 * i + 4 + 2 * j;
        let bits = words[p + 1];
        let value = operand::value::value_of(words[p] as u8, bits);
        let Some(n) = operand::write::write_operand(c, value, bits) else {
            return Err(Refusal::BadOperand(OperandFault::Misfit, i, j + 1));
        };
        k = numbers::little_endian::put_le(out, k, sheet::operand_types::width(c), n);
    }
    Ok(k)
}
