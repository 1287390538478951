// Numbers from text, as Rust's `str::parse` and `from_str_radix` read them. Both of Rust's errors, a byte that is no
// digit and a number that is too large, are one answer here.
ghost use Rattle.std.specs.Prelude.{◌≡◌, ◌^◌, ◌<◌, ◌≤◌, length, drop};
ghost use Rattle.spec_numbers.specs.Parse.{digit_value, digits_value, unsigned_value, parse_u32_in, parse_u32, parse_hex, parse_i32, minus, negated};
ghost use Rattle.spec_numbers.specs.TwosComplement.{unsigned};
ghost use Rattle.numbers.specs.Answers.{number_of};
ghost use Rattle.numbers.specs.Room.{has_room};

use slices::compare::is_within;

// What a byte is worth as a digit. One that is no digit is worth 16, which no base has, so that a reader compares once. A range takes one
// comparison here, and two in a `match` on the ranges.
pub fn digit_value(b: u8) -> u8
    ensures { result ≡ digit_value b }
{
    if is_within(b'0', b'9', b) {
        return b - 48;
    }
    if is_within(b'a', b'f', b) {
        return b - 87;
    }
    if is_within(b'A', b'F', b) {
        return b - 55;
    }
    16
}

// Whether one more digit may stand behind n, where the largest number is `last` behind `front`. Mostly the first comparison says it; one
// condition with `||` and `&&` has all of them made for each digit.
fn has_room(front: u64, last: u64, n: u64, d: u64) -> bool
    ensures { result ≡ has_room front last n d }
{
    if n < front {
        return true;
    }
    if n == front {
        return d <= last;
    }
    false
}

// The number of some digits. The next number is compared with `most` before it is made, so that `most` may be the largest u64;
// `most` is divided once for all digits.
fn parse_digits(digits: &[u8], base: u64, most: u64) -> Option<u64>
    requires { 0 < base }
    ensures { result ≡ number_of (digits_value base most 0 digits.now) }
{
    let front = most / base;
    let last = most % base;
    let mut acc: u64 = 0;
    for &b in digits {
        let d = digit_value(b) as u64;
        if base <= d || !has_room(front, last, acc, d) {
            return None;
        }
        acc = acc * base + d;
    }
    Some(acc)
}

// One digit or more from `from` on.
pub fn unsigned_value(s: &[u8], from: usize, base: u64, most: u64) -> Option<u64>
    requires { (from ≤ length s.now) × (0 < base) }
    ensures { result ≡ number_of (unsigned_value base most (drop from s.now)) }
{
    if s.len() <= from {
        return None;
    }
    parse_digits(&s[from..], base, most)
}

// A u32 with a `+` that may stand in front. The base is a const, so that what a digit is tested by and multiplied with is known.
fn parse_u32_in<const BASE: u64>(s: &[u8]) -> Option<u64>
    requires { 0 < BASE }
    ensures { result ≡ number_of (parse_u32_in BASE s.now) }
{
    match s {
        [] => None,
        [b'+', ..] => unsigned_value(s, 1, BASE, 0xffff_ffff),
        _ => unsigned_value(s, 0, BASE, 0xffff_ffff),
    }
}

// `str::parse::<u32>`.
pub fn parse_u32(s: &[u8]) -> Option<u64>
    ensures { result ≡ number_of (parse_u32 s.now) }
{
    parse_u32_in::<10>(s)
}

// `u32::from_str_radix(_, 16)`.
pub fn parse_hex(s: &[u8]) -> Option<u64>
    ensures { result ≡ number_of (parse_hex s.now) }
{
    parse_u32_in::<16>(s)
}

// The 32 bits of minus n.
fn minus_bits(n: u64) -> u64
    requires { n ≤ 2 ^ 32 }
    ensures { result ≡ unsigned 32 (minus n) }
{
    if n == 0 { 0 } else { 0x1_0000_0000 - n }
}

// The digits behind a `-`, of which the largest is 2^31.
fn parse_minus(s: &[u8]) -> Option<u64>
    requires { 1 ≤ length s.now }
    ensures { result ≡ number_of (negated (unsigned_value 10 (2 ^ 31) (drop 1 s.now))) }
{
    let n = unsigned_value(s, 1, 10, 0x8000_0000)?;
    Some(minus_bits(n))
}

// `str::parse::<i32>`, answered by the 32 bits of the number.
pub fn parse_i32(s: &[u8]) -> Option<u64>
    ensures { result ≡ number_of (parse_i32 s.now) }
{
    match s {
        [] => None,
        [b'-', ..] => parse_minus(s),
        [b'+', ..] => unsigned_value(s, 1, 10, 0x7fff_ffff),
        _ => unsigned_value(s, 0, 10, 0x7fff_ffff),
    }
}
