// Numbers as text by whole words. A listing prints numbers of all sizes in any order, and a branch that depends on their digits costs
// more than a store of eight bytes.
ghost use Rattle.std.specs.Prelude.{◌≡◌, ◌+◌, ◌-◌, ◌/◌, ◌<◌, ◌≤◌, [], ◌∷◌, ◌++◌, length, nat_lt};
ghost use Rattle.lists.specs.Choice.{pick, both};
ghost use Rattle.lists.specs.Write.{ByWords};
ghost use Rattle.spec_numbers.specs.LittleEndian.{le};
ghost use Rattle.spec_numbers.specs.Print.{decimal, signed_decimal, hex_lower4};
ghost use Rattle.spec_numbers.specs.TwosComplement.{signed};
ghost use Rattle.numbers.specs.Digits.{two_digits, four_digits, eight_digits, four_hex_digits};

use crate::words::{has_room, put_word, set_word};

// How many digits a number below 10000 has.
fn digit_count(n: u64) -> usize
    requires { n < 10000 }
    ensures { result ≡ length (decimal n) }
{
    1 + usize::from(9 < n) + usize::from(99 < n) + usize::from(999 < n)
}

// The tens of a number below 100, and the hundreds of one below 10000: a product and a shift, where a division of a u64 takes twice the
// steps.
fn tens(n: u64) -> u64
    requires { n < 100 }
    ensures { result ≡ n / 10 }
{
    n * 103 / 1024
}

fn hundreds(n: u64) -> u64
    requires { n < 10000 }
    ensures { result ≡ n / 100 }
{
    n * 5243 / 524288
}

// The two digits of a number below 100 as bytes of a word, the first the lowest.
fn pair_word(n: u64) -> u64
    requires { n < 100 }
    ensures { (result ≡ le (two_digits n)) × (result < 65536) }
{
    // The ones are n less ten times the tens: in the upper byte 10 * 256 off for each ten, and 1 in the lower.
    0x3030 + n * 256 - tens(n) * 2559
}

// Four digits, with zeros in front.
fn four_word(n: u64) -> u64
    requires { n < 10000 }
    ensures { (result ≡ le (four_digits n)) × (result < 4294967296) }
{
    let h = hundreds(n);
    pair_word(h) + pair_word(n - h * 100) * 65536
}

// A number of at most four digits: the zeros in front are shifted out.
fn put_small_word(out: &mut [u8], at: usize, n: u64) -> usize
    requires { (n < 10000) × (at + 8 ≤ length out.old) }
    ensures by_words { ByWords out.old at (decimal n) out.new result }
    ensures upper_bound { result ≤ at + 4 }
{
    let w = digit_count(n);
    set_word(out, at, w, four_word(n) >> (32 - 8 * w))
}

// Four digits, with zeros in front.
fn put_four_word(out: &mut [u8], at: usize, n: u64) -> usize
    requires { (n < 10000) × (at + 8 ≤ length out.old) }
    ensures { ByWords out.old at (four_digits n) out.new result }
{
    set_word(out, at, 4, four_word(n))
}

// Eight digits, with zeros in front.
fn put_eight_word(out: &mut [u8], at: usize, n: u64) -> usize
    requires { (n < 100000000) × (at + 8 ≤ length out.old) }
    ensures { ByWords out.old at (eight_digits n) out.new result }
{
    let front = four_word(n / 10000);
    set_word(out, at, 8, front + four_word(n % 10000) * 0x1_0000_0000)
}

// A number of at most twelve digits, where there is room for two words.
fn put_digits(out: &mut [u8], at: usize, n: u64) -> usize
    requires { (n < 1000000000000) × (at + 12 ≤ length out.old) }
    ensures by_words { ByWords out.old at (decimal n) out.new result }
    ensures upper_bound { result ≤ at + 12 }
{
    if n < 10000 {
        return put_small_word(out, at, n);
    }
    if n < 100000000 {
        let k = put_small_word(out, at, n / 10000);
        return put_four_word(out, k, n % 10000);
    }
    let k = put_small_word(out, at, n / 100000000);
    put_eight_word(out, k, n % 100000000)
}

// Writes n in decimal. Where there is no room for words, the digits are written beside it and copied as far as they fit.
pub fn put_decimal(out: &mut [u8], at: usize, n: u64) -> usize
    requires { n < 1000000000000 }
    ensures { ByWords out.old at (decimal n) out.new result }
{
    if has_room(out.len(), at, 4) {
        return put_digits(out, at, n);
    }
    let mut digits = [0u8; 24];
    let k = put_digits(&mut digits, 0, n);
    slices::write::put_bytes(out, at, &digits[0..k])
}

// Whether a number of 32 bits is below zero, where `minus` says that it may be.
fn is_negative(minus: bool, n: u64) -> bool
    ensures { result ≡ both minus (nat_lt 2147483647 n) }
{
    minus && 0x7fff_ffff < n
}

// A number of 32 bits without its sign.
fn magnitude(negative: bool, n: u64) -> u64
    requires { n < 4294967296 }
    ensures { (result ≡ pick negative (4294967296 - n) n) × (result ≤ 4294967296) }
{
    if negative { 0x1_0000_0000 - n } else { n }
}

// Writes a number of 32 bits in decimal, with a minus sign where it is below zero and `minus` is set.
pub fn put_signed(out: &mut [u8], at: usize, minus: bool, n: u64) -> usize
    requires { n < 4294967296 }
    ensures { ByWords out.old at (pick minus (signed_decimal (signed 32 n)) (decimal n)) out.new result }
{
    let negative = is_negative(minus, n);
    let k = put_word(out, at, usize::from(negative), 45);
    put_decimal(out, k, magnitude(negative, n))
}

// The four hexadecimal digits of a number and two spaces, as they stand in front of a listed line. All digits are made characters at
// once: from 10 on the sum with 6 has one bit more, and a letter stands 39 behind where the digits would go on.
fn offset_word(n: u64) -> u64
    requires { n < 65536 }
    ensures { result ≡ le (four_hex_digits 97 n ++ (32 ∷ 32 ∷ [])) }
{
    let front = n / 256;
    let back = n % 256;
    let values = front / 16 + front % 16 * 256 + back / 16 * 65536 + back % 16 * 0x100_0000;
    let letters = ((values + 0x0606_0606) & 0x1010_1010) / 16;
    values + letters * 39 + 0x2020_3030_3030
}

// Writes them: `{:04x}` and two spaces.
pub fn put_offset(out: &mut [u8], at: usize, n: u64) -> usize
    ensures { ByWords out.old at (hex_lower4 n ++ (32 ∷ 32 ∷ [])) out.new result }
{
    if n < 65536 {
        return put_word(out, at, 6, offset_word(n));
    }
    let k = crate::print_hex::put_hex_lower4(out, at, n);
    slices::write::put_bytes(out, k, b"  ")
}
