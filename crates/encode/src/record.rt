// One record of 20 words encoded under a sheet's table, `encode_instruction` of encode.rs.
ghost use Rattle.std.specs.Prelude.{◌≡◌, ◌+◌, ◌*◌, ◌≤◌, length};
ghost use Rattle.spec_body.specs.Encode.{encode_record};
ghost use Rattle.encode.specs.Canonical.{code_table, Counted};
ghost use Rattle.encode.specs.RecordPlaces.{record_at};
ghost use Rattle.encode.specs.Written.{Turn};

use crate::record_operands::encode_operands;
use crate::record_shape::good_shape;
use answers::refusal::Refusal;

// Writes record i from position `from` on, whatever its operands' kinds are.
fn encode_any(
    types: &[[u8; 8]; 256],
    last: usize,
    words: &[u64],
    i: usize,
    out: &mut [u8],
    from: usize,
) -> Result<usize, Refusal>
    requires { (20 * i + 20 ≤ length words.now) × (last ≤ 255) }
    ensures { Turn (encode_record types.now last i (record_at words.now (20 * i))) out.old «from» 0 out.new result }
{
    let at = 20 * i;
    if !good_shape(words, at) {
        return Err(Refusal::BadRecord(i));
    }
    let opcode = words[at + 1];
    if (last as u64) < opcode {
        return Err(Refusal::Beyond(i));
    }
    let row = types[opcode as usize];
    if words[at + 3] != sheet::row::operand_count(row) {
        return Err(Refusal::OperandCount(i));
    }
    let k = slices::write::put_byte(out, from, opcode as u8);
    encode_operands(row, words, i, out, k)
}

// Writes record i from position `from` on. Where it is a canonical one, up to `spare` bytes behind it may be written as well,
// since so many are written over by the records behind it.
pub(crate) fn encode_record(
    codes: &[[u64; 13]; 3],
    counts: &[u8; 256],
    types: &[[u8; 8]; 256],
    last: usize,
    words: &[u64],
    i: usize,
    spare: usize,
    out: &mut [u8],
    from: usize,
) -> Result<usize, Refusal>
    requires { (codes.now ≡ code_table) × (Counted types.now last counts.now) × (20 * i + 20 ≤ length words.now) × (last ≤ 255) }
    ensures { Turn (encode_record types.now last i (record_at words.now (20 * i))) out.old «from» spare out.new result }
{
    let at = 20 * i;
    if crate::canonical::has_room(out.len(), from, spare) {
        if crate::canonical::is_canonical(codes, counts, types, last, words, at) {
            let k = crate::canonical::put_record(codes, types, words, at, out, from);
            return Ok(k);
        }
    }
    encode_any(types, last, words, i, out, from)
}
