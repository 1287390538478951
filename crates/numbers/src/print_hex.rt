// Hexadecimal numbers as text, through the counting writer.
ghost use Rattle.std.specs.Prelude.{◌≤◌};
ghost use Rattle.lists.specs.Write.{Put};
ghost use Rattle.spec_numbers.specs.Print.{digits, padded, hex_upper, hex_lower4, hex_upper4, hex_upper16};

use crate::print_digits::{put_eight, put_four, put_middle, put_two};

// Writes n in hexadecimal with letters from `letter` on ('a' is 97, 'A' is 65).
fn put_hex(out: &mut [u8], at: usize, n: u64, letter: u8) -> usize
    requires { letter ≤ 97 }
    ensures { Put out.old at (digits 16 letter 16 n) out.new result }
{
    if n < 0x1_0000_0000 {
        return put_middle::<16>(out, at, n, letter);
    }
    let k = put_middle::<16>(out, at, n / 0x1_0000_0000, letter);
    put_eight::<16>(out, k, n % 0x1_0000_0000, letter)
}

// At least four digits, which are written at once where there are no more.
fn put_hex4(out: &mut [u8], at: usize, n: u64, letter: u8) -> usize
    requires { letter ≤ 97 }
    ensures { Put out.old at (padded 4 (digits 16 letter 16 n)) out.new result }
{
    if n < 65536 {
        return put_four::<16>(out, at, n, letter);
    }
    put_hex(out, at, n, letter)
}

// Writes `{:02X}` of a byte.
pub fn put_hex_byte(out: &mut [u8], at: usize, b: u8) -> usize
    ensures { Put out.old at (padded 2 (hex_upper b)) out.new result }
{
    put_two::<16>(out, at, b as u64, 65)
}

// Writes `{:04x}`.
pub fn put_hex_lower4(out: &mut [u8], at: usize, n: u64) -> usize
    ensures { Put out.old at (hex_lower4 n) out.new result }
{
    put_hex4(out, at, n, 97)
}

// Writes `{:04X}`.
pub fn put_hex_upper4(out: &mut [u8], at: usize, n: u64) -> usize
    ensures { Put out.old at (hex_upper4 n) out.new result }
{
    put_hex4(out, at, n, 65)
}

// Writes `{:016X}`, eight digits and eight more.
pub fn put_hex_upper16(out: &mut [u8], at: usize, n: u64) -> usize
    ensures { Put out.old at (hex_upper16 n) out.new result }
{
    let k = put_eight::<16>(out, at, n / 0x1_0000_0000, 65);
    put_eight::<16>(out, k, n % 0x1_0000_0000, 65)
}

// Writes `{:X}`.
pub fn put_hex_upper(out: &mut [u8], at: usize, n: u64) -> usize
    ensures { Put out.old at (hex_upper n) out.new result }
{
    put_hex(out, at, n, 65)
}
