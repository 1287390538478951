// The desk's leaves for C, each to be compared with the Rust that it was ported from. Each calls the library's function of
// its name and promises what that promises. A slice comes as a pointer and a length.
#![tactic(auto)]

ghost use Rattle.std.specs.Prelude.{◌≡◌, false};
ghost use Rattle.lists.specs.Write.{Put};
ghost use Rattle.numbers.specs.Answers.{number_of};
ghost use Rattle.slices.specs.Answers.{found_of};
ghost use Rattle.spec_numbers.specs.Parse.{parse_u32, parse_hex, parse_i32};
ghost use Rattle.spec_numbers.specs.Print.{decimal, signed_decimal, hex_lower4};
ghost use Rattle.spec_numbers.specs.TwosComplement.{signed};
ghost use Rattle.spec_numbers.specs.Double.{read_double, print_double};
ghost use Rattle.spec_strings.specs.Escape.{quoted, unescape};
ghost use Rattle.spec_strings.specs.Table.{fault, lookup};
ghost use Rattle.spec_strings.specs.Utf8.{is_utf8};
ghost use Rattle.desk_parts.specs.Parts.{part_of};

use desk_parts::PartNumber;

// Reads a u32 in decimal.
#[unsafe(no_mangle)]
pub extern "C" fn part_parse_u32(text: &[u8]) -> PartNumber
    ensures { result ≡ part_of (number_of (parse_u32 text.now)) }
{
    desk_parts::part_parse_u32(text)
}

// Reads a u32 in hexadecimal.
#[unsafe(no_mangle)]
pub extern "C" fn part_parse_hex(text: &[u8]) -> PartNumber
    ensures { result ≡ part_of (number_of (parse_hex text.now)) }
{
    desk_parts::part_parse_hex(text)
}

// Reads an i32 in decimal; the value is its 32 bits.
#[unsafe(no_mangle)]
pub extern "C" fn part_parse_i32(text: &[u8]) -> PartNumber
    ensures { result ≡ part_of (number_of (parse_i32 text.now)) }
{
    desk_parts::part_parse_i32(text)
}

// Reads a double; the value is its 64 bits.
#[unsafe(no_mangle)]
pub extern "C" fn part_parse_double(text: &[u8]) -> PartNumber
    ensures { result ≡ part_of (number_of (read_double text.now)) }
{
    desk_parts::part_parse_double(text)
}

// Prints a number in decimal.
#[unsafe(no_mangle)]
pub extern "C" fn part_print_decimal(n: u64, out: &mut [u8]) -> usize
    ensures { Put out.old 0 (decimal n) out.new result }
{
    desk_parts::part_print_decimal(n, out)
}

// Prints the signed number of 32 bits in decimal.
#[unsafe(no_mangle)]
pub extern "C" fn part_print_signed(bits: u32, out: &mut [u8]) -> usize
    ensures { Put out.old 0 (signed_decimal (signed 32 bits)) out.new result }
{
    desk_parts::part_print_signed(bits, out)
}

// Prints `{:04x}`.
#[unsafe(no_mangle)]
pub extern "C" fn part_print_hex4(n: u64, out: &mut [u8]) -> usize
    ensures { Put out.old 0 (hex_lower4 n) out.new result }
{
    desk_parts::part_print_hex4(n, out)
}

// Prints the double of 64 bits.
#[unsafe(no_mangle)]
pub extern "C" fn part_print_double(bits: u64, out: &mut [u8]) -> usize
    ensures { Put out.old 0 (print_double bits) out.new result }
{
    desk_parts::part_print_double(bits, out)
}

// Prints a text escaped and between quotes.
#[unsafe(no_mangle)]
pub extern "C" fn part_escape(text: &[u8], out: &mut [u8]) -> usize
    ensures { Put out.old 0 (quoted text.now) out.new result }
{
    desk_parts::part_escape(text, out)
}

// Reads what stands between quotes.
#[unsafe(no_mangle)]
pub extern "C" fn part_unescape(text: &[u8], out: &mut [u8]) -> usize
    ensures { Put out.old 0 (unescape false text.now) out.new result }
{
    desk_parts::part_unescape(text, out)
}

#[unsafe(no_mangle)]
pub extern "C" fn part_is_utf8(text: &[u8]) -> bool
    ensures { result ≡ is_utf8 text.now }
{
    desk_parts::part_is_utf8(text)
}

// The first entry of a string table that is refused with 17.
#[unsafe(no_mangle)]
pub extern "C" fn part_table_fault(bytes: &[u8], ends: &[u32]) -> PartNumber
    ensures { result ≡ part_of (found_of (fault bytes.now ends.now)) }
{
    desk_parts::part_table_fault(bytes, ends)
}

// The first id of a string table whose text is equal.
#[unsafe(no_mangle)]
pub extern "C" fn part_lookup(text: &[u8], bytes: &[u8], ends: &[u32]) -> PartNumber
    ensures { result ≡ part_of (found_of (lookup text.now bytes.now ends.now)) }
{
    desk_parts::part_lookup(text, bytes, ends)
}
