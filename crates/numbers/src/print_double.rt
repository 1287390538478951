// Doubles as text, through the counting writer.
ghost use Rattle.std.specs.Prelude.{◌++◌};
ghost use Rattle.lists.specs.Write.{Put};
ghost use Rattle.spec_numbers.specs.Double.{print_double, sign_text, infinity_text, hex_mark};
ghost use Rattle.spec_numbers.specs.Print.{hex_upper16};

use crate::print_decimal::put_decimal;
use crate::print_hex::put_hex_upper16;
use crate::whole::whole_of;
use slices::write::{put_byte, put_bytes};

// Writes `-` for a set sign bit, and nothing for a clear one.
fn put_sign(out: &mut [u8], at: usize, sign: u64) -> usize
    ensures { Put out.old at (sign_text sign) out.new result }
{
    if sign == 0 {
        return at;
    }
    put_byte(out, at, 45)
}

// Writes 0x and the 16 digits of the bits.
fn put_bits(out: &mut [u8], at: usize, bits: u64) -> usize
    ensures { Put out.old at (hex_mark ++ hex_upper16 bits) out.new result }
{
    let k = put_bytes(out, at, b"0x");
    put_hex_upper16(out, k, bits)
}

// Writes an infinity with its sign.
fn put_infinity(out: &mut [u8], at: usize, sign: u64) -> usize
    ensures { Put out.old at (sign_text sign ++ infinity_text) out.new result }
{
    let k = put_sign(out, at, sign);
    put_bytes(out, k, b"Infinity")
}

// Writes a double.
pub fn put_double(out: &mut [u8], at: usize, bits: u64) -> usize
    ensures { Put out.old at (print_double bits) out.new result }
{
    let sign = bits / 0x8000_0000_0000_0000;
    if let Some(n) = whole_of(bits) {
        let k = put_sign(out, at, sign);
        return put_decimal(out, k, n);
    }
    if bits % 0x8000_0000_0000_0000 == 0x7ff0_0000_0000_0000 {
        return put_infinity(out, at, sign);
    }
    put_bits(out, at, bits)
}
