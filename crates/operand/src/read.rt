// An operand of a body: `OperandType::read` of opcode.rs, which calls the reader's read of its kind.
ghost use Rattle.std.specs.Prelude.{◌≡◌, ◌+◌, ◌^◌, ◌≤◌, ◌<◌, length};
ghost use Rattle.lists.specs.Scan.{part};
ghost use Rattle.spec_numbers.specs.LittleEndian.{le};
ghost use Rattle.spec_sheet.specs.Types.{width_of};
ghost use Rattle.operand.specs.Value.{operand_at};

use crate::reader;
use crate::value::{Operand, OperandValue};

// An operand that is no double, of which nothing stands beside the value.
fn without_bits(value: OperandValue, next: usize) -> Operand
    ensures { result ≡ record { value = value; bits = 0; next = next } }
{
    Operand {
        value,
        bits: 0,
        next,
    }
}

// The operand of a type at `at`. What is no type has no bytes.
pub fn read_operand(code: u8, s: &[u8], at: usize) -> Operand
    requires { at + width_of code ≤ length s.now }
    ensures { (result ≡ operand_at code s.now at) × (le (part s.now at (width_of code)) < 256 ^ width_of code) }
{
    if sheet::operand_types::width(code) == 0 {
        return without_bits(OperandValue::U8(0), at);
    }
    match sheet::operand_types::kind(code) {
        0 => {
            let r = reader::u8_of(s, at).unwrap();
            without_bits(OperandValue::U8(r.value), r.next)
        }
        1 => {
            let r = reader::u16_of(s, at).unwrap();
            without_bits(OperandValue::U16(r.value), r.next)
        }
        2 => {
            let r = reader::u32_of(s, at).unwrap();
            without_bits(OperandValue::U32(r.value), r.next)
        }
        3 => {
            let r = reader::i8_of(s, at).unwrap();
            without_bits(OperandValue::I8(r.value), r.next)
        }
        4 => {
            let r = reader::i32_of(s, at).unwrap();
            without_bits(OperandValue::I32(r.value), r.next)
        }
        _ => {
            let r = reader::f64_of(s, at).unwrap();
            Operand {
                value: OperandValue::F64(r.value),
                bits: r.bits,
                next: r.next,
            }
        }
    }
}

// The bits of an operand, whatever its kind. Listing prints by them: a branch by the kind costs more there than the operand.
pub fn read_bits(code: u8, s: &[u8], at: usize) -> u64
    requires { at + width_of code ≤ length s.now }
    ensures { (result ≡ le (part s.now at (width_of code))) × (result < 256 ^ width_of code) }
{
    numbers::little_endian::read_le(s, at, sheet::operand_types::width(code))
}
