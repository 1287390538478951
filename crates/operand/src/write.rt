// One operand: the little-endian number that a value gives under an operand type, or that it does not fit: `write_operand` of
// encode.rs.
ghost use Rattle.std.specs.Prelude.{◌≡◌, ℕ, ◌^◌, ltb};
ghost use Rattle.lists.specs.Write.{Put};
ghost use Rattle.spec_numbers.specs.LittleEndian.{le_bytes};
ghost use Rattle.spec_sheet.specs.Types.{width_of};
ghost use Rattle.spec_body.specs.Encode.{encode_unsigned, encode_addr8, encode_signed32, encode_double, encode_operand};
ghost use Rattle.operand.specs.Value.{kind_of_value, bits_of_value};
ghost use Rattle.operand.specs.Write.{write_operand, fitted_of};

use crate::value::{OperandValue, bits_of, value_of};
use numbers::signed::sign_extend8;
use sheet::family::Family;

// Whether a number has at most w bytes.
pub fn fits_in(w: usize, bits: u64) -> bool
    ensures { result ≡ ltb bits (256 ^ w) }
{
    8 <= w || bits >> (8 * w) == 0
}

// Into a register, a number or a string id: an unsigned value that is no wider.
fn encode_unsigned(code: u8, v: OperandValue) -> Option<u64>
    ensures { (beside : ℕ) → result ≡ fitted_of (encode_unsigned code (kind_of_value v) (bits_of_value v beside)) }
{
    let bits = match v {
        OperandValue::U8(x) => x as u64,
        OperandValue::U16(x) => x as u64,
        OperandValue::U32(x) => x as u64,
        _ => return None,
    };
    fits_in(sheet::operand_types::width(code), bits).then_some(bits)
}

// Into Addr8: a signed byte, a number that is one, and a U8 by its bits.
fn encode_addr8(v: OperandValue) -> Option<u64>
    ensures { (beside : ℕ) → result ≡ fitted_of (encode_addr8 (kind_of_value v) (bits_of_value v beside)) }
{
    match v {
        OperandValue::U8(x) => Some(x as u64),
        OperandValue::I8(x) => Some(x.cast_unsigned() as u64),
        OperandValue::I32(x) => {
            let bits = x.cast_unsigned() as u64;
            (bits < 128 || 0xffff_ff80 <= bits).then_some(bits % 256)
        }
        _ => None,
    }
}

// Into Addr32 and Imm32: a signed byte with its sign, and other values by their bits, but no double.
fn encode_signed32(v: OperandValue) -> Option<u64>
    ensures { (beside : ℕ) → result ≡ fitted_of (encode_signed32 (kind_of_value v) (bits_of_value v beside)) }
{
    match v {
        OperandValue::I8(x) => Some(sign_extend8(x.cast_unsigned()) as u64),
        OperandValue::F64(_) => None,
        _ => Some(bits_of(v, 0)),
    }
}

// Into Double: a double by the bits beside it.
fn encode_double(v: OperandValue, beside: u64) -> Option<u64>
    ensures { result ≡ fitted_of (encode_double (kind_of_value v) (bits_of_value v beside)) }
{
    match v {
        OperandValue::F64(_) => Some(beside),
        _ => None,
    }
}

// The number of an operand of a type, from a value. A double's bits stand beside it.
pub fn write_operand(code: u8, v: OperandValue, beside: u64) -> Option<u64>
    ensures { result ≡ fitted_of (write_operand code v beside) }
{
    match sheet::operand_types::family(code) {
        Family::NoOperand | Family::Reg | Family::UInt | Family::Str => encode_unsigned(code, v),
        _ => match code {
            sheet::operand_types::ADDR8 => encode_addr8(v),
            sheet::operand_types::DOUBLE => encode_double(v, beside),
            _ => encode_signed32(v),
        },
    }
}

// Writes a number as an operand of a type, as a value of the type's kind: its low bytes. What is no type has none.
pub fn put_value(out: &mut [u8], k: usize, code: u8, bits: u64) -> usize
    ensures { Put out.old k (le_bytes (width_of code) bits) out.new result }
{
    let value = value_of(sheet::operand_types::kind(code), bits);
    let Some(n) = write_operand(code, value, bits) else {
        return k;
    };
    numbers::little_endian::put_le(out, k, sheet::operand_types::width(code), n)
}
