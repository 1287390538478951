// The desk's leaves, for comparing each of them with the Rust that it was ported from; the crate desk_parts_c has them for C.
// Those that print keep to `Put` at position 0: they return the length of the whole text. Where `out` is longer, the bytes
// behind the text stay as they were; where it is shorter, it holds as much of the text's front as it has room for.
#![tactic(auto)]

ghost use Rattle.std.specs.Prelude.{◌≡◌, false};
ghost use Rattle.lists.specs.Write.{Put};
ghost use Rattle.numbers.specs.Answers.{number_of};
ghost use Rattle.slices.specs.Answers.{found_of};
ghost use Rattle.spec_numbers.specs.Parse.{parse_u32, parse_hex, parse_i32};
ghost use Rattle.spec_numbers.specs.Print.{decimal, signed_decimal, hex_lower4};
ghost use Rattle.spec_numbers.specs.TwosComplement.{signed};
ghost use Rattle.spec_numbers.specs.Double.{read_double, print_double};
ghost use Rattle.spec_strings.specs.Escape.{quoted, unescape};
ghost use Rattle.spec_strings.specs.Table.{fault, lookup};
ghost use Rattle.spec_strings.specs.Utf8.{is_utf8};
ghost use Rattle.desk_parts.specs.Parts.{part_of};

use strings::table::StringTable;

// 1 and a number, or two zeros where there is none.
#[repr(C)]
#[derive(Clone, Copy)]
pub struct PartNumber {
    pub found: u64,
    pub value: u64,
}

// What was read from a text.
impl From<Option<u64>> for PartNumber {
    ghost from_gives = { λ a p. p ≡ part_of a };

    fn from(a: Option<u64>) -> PartNumber {
        match a {
            Some(value) => PartNumber { found: 1, value },
            None => PartNumber { found: 0, value: 0 },
        }
    }
}

// The index that a search found.
impl From<Option<usize>> for PartNumber {
    ghost from_gives = { λ a p. p ≡ part_of a };

    fn from(a: Option<usize>) -> PartNumber {
        PartNumber::from(a.map(|i| i as u64))
    }
}

// Reads a u32 in decimal.
pub fn part_parse_u32(text: &[u8]) -> PartNumber
    ensures { result ≡ part_of (number_of (parse_u32 text.now)) }
{
    PartNumber::from(numbers::parse::parse_u32(text))
}

// Reads a u32 in hexadecimal.
pub fn part_parse_hex(text: &[u8]) -> PartNumber
    ensures { result ≡ part_of (number_of (parse_hex text.now)) }
{
    PartNumber::from(numbers::parse::parse_hex(text))
}

// Reads an i32 in decimal; the value is its 32 bits.
pub fn part_parse_i32(text: &[u8]) -> PartNumber
    ensures { result ≡ part_of (number_of (parse_i32 text.now)) }
{
    PartNumber::from(numbers::parse::parse_i32(text))
}

// Reads a double; the value is its 64 bits.
pub fn part_parse_double(text: &[u8]) -> PartNumber
    ensures { result ≡ part_of (number_of (read_double text.now)) }
{
    PartNumber::from(numbers::read_double::read_double(text))
}

// Prints a number in decimal.
pub fn part_print_decimal(n: u64, out: &mut [u8]) -> usize
    ensures { Put out.old 0 (decimal n) out.new result }
{
    numbers::print_decimal::put_decimal(out, 0, n)
}

// Prints the signed number of 32 bits in decimal.
pub fn part_print_signed(bits: u32, out: &mut [u8]) -> usize
    ensures { Put out.old 0 (signed_decimal (signed 32 bits)) out.new result }
{
    let mut text = [0u8; 32];
    let k = numbers::print_words::put_signed(&mut text, 0, true, bits as u64);
    slices::write::put_bytes(out, 0, &text[0..k])
}

// Prints `{:04x}`.
pub fn part_print_hex4(n: u64, out: &mut [u8]) -> usize
    ensures { Put out.old 0 (hex_lower4 n) out.new result }
{
    numbers::print_hex::put_hex_lower4(out, 0, n)
}

// Prints the double of 64 bits.
pub fn part_print_double(bits: u64, out: &mut [u8]) -> usize
    ensures { Put out.old 0 (print_double bits) out.new result }
{
    numbers::print_double::put_double(out, 0, bits)
}

// Prints a text escaped and between quotes.
pub fn part_escape(text: &[u8], out: &mut [u8]) -> usize
    ensures { Put out.old 0 (quoted text.now) out.new result }
{
    strings::escapes::put_quoted(out, 0, text)
}

// Reads what stands between quotes.
pub fn part_unescape(text: &[u8], out: &mut [u8]) -> usize
    ensures { Put out.old 0 (unescape false text.now) out.new result }
{
    strings::unescape::put_unescaped(out, 0, text)
}

pub fn part_is_utf8(text: &[u8]) -> bool
    ensures { result ≡ is_utf8 text.now }
{
    strings::utf8::is_utf8(text)
}

// The first entry of a string table that is refused with 17.
pub fn part_table_fault(bytes: &[u8], ends: &[u32]) -> PartNumber
    ensures { result ≡ part_of (found_of (fault bytes.now ends.now)) }
{
    PartNumber::from(StringTable { bytes, ends }.find_fault())
}

// The first id of a string table whose text is equal.
pub fn part_lookup(text: &[u8], bytes: &[u8], ends: &[u32]) -> PartNumber
    ensures { result ≡ part_of (found_of (lookup text.now bytes.now ends.now)) }
{
    PartNumber::from(StringTable { bytes, ends }.lookup(text))
}
