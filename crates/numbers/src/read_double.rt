// Doubles from text.
ghost use Rattle.std.specs.Prelude.{◌≡◌, ◌^◌, ◌≤◌, length, drop};
ghost use Rattle.numbers.specs.Answers.{number_of};
ghost use Rattle.spec_numbers.specs.Double.{with_sign, whole_digits, read_whole, read_hex16, read_double};

use crate::parse::unsigned_value;
use crate::whole::bits_of_whole;
use slices::compare::{opens_at, same_bytes};

// The bits of the digits from `from` on, with those of a sign.
fn read_digits(s: &[u8], from: usize, sign: u64) -> Option<u64>
    requires { (from ≤ length s.now) × (sign ≤ 2 ^ 63) }
    ensures { result ≡ number_of (with_sign sign (whole_digits (drop from s.now))) }
{
    if 16 < s.len() - from {
        return None;
    }
    let n = unsigned_value(s, from, 10, 0x20_0000_0000_0000)?;
    Some(sign + bits_of_whole(n))
}

// A sign that may stand in front, and digits.
fn read_whole(s: &[u8]) -> Option<u64>
    ensures { result ≡ number_of (read_whole s.now) }
{
    match s {
        [] => None,
        [b'-', ..] => read_digits(s, 1, 0x8000_0000_0000_0000),
        [b'+', ..] => read_digits(s, 1, 0),
        _ => read_digits(s, 0, 0),
    }
}

// The 16 hex digits behind the `0x`.
fn read_hex16(s: &[u8]) -> Option<u64>
    ensures { result ≡ number_of (read_hex16 (drop 2 s.now)) }
{
    if s.len() != 18 {
        return None;
    }
    unsigned_value(s, 2, 16, 0xffff_ffff_ffff_ffff)
}

// The bits of a double.
pub fn read_double(s: &[u8]) -> Option<u64>
    ensures { result ≡ number_of (read_double s.now) }
{
    if same_bytes(s, b"Infinity") {
        return Some(0x7ff0_0000_0000_0000);
    }
    if same_bytes(s, b"-Infinity") {
        return Some(0xfff0_0000_0000_0000);
    }
    if opens_at(s, 0, b"0x") {
        return read_hex16(s);
    }
    read_whole(s)
}
