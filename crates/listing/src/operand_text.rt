// Operands as they are listed: format_operand of disasm.rs.
ghost use Rattle.std.specs.Prelude.{◌≡◌, ◌++◌, ◌+◌, ◌^◌, ◌<◌, ◌≤◌, eqb, length};
ghost use Rattle.limits.specs.Limits.{body_limit};
ghost use Rattle.lists.specs.Choice.{pick};
ghost use Rattle.lists.specs.Text.{text};
ghost use Rattle.lists.specs.Write.{ByWords};
ghost use Rattle.spec_numbers.specs.LittleEndian.{le_bytes};
ghost use Rattle.spec_sheet.specs.Types.{width_of, family_of, addr_family};
ghost use Rattle.spec_sheet.specs.Row.{length_of};
ghost use Rattle.spec_body.specs.Record.{pairs};
ghost use Rattle.spec_listing.specs.Operand.{target_of, string_text, operand_text, operand_texts};
ghost use Rattle.sheet.specs.Families.{family_number};
ghost use Rattle.listing.specs.Numbers.{front_text, signed_family, value_text};

use crate::lister::Lister;
use list_labels::target::target_of;
use numbers::print_words::{put_decimal, put_signed};
use numbers::words::put_word;
use sheet::family::Family;

// Writes the text of a string id, quoted, where texts are shown and it has one; else the number.
fn put_string(lister: &Lister<'_>, out: &mut [u8], k: usize, id: u64) -> usize
    requires { id < 4294967296 }
    ensures { ByWords out.old k (string_text lister.now.options.resolve_strings lister.now.strings.bytes.now lister.now.strings.ends.now id) out.new result }
{
    if lister.options.resolve_strings {
        let strings = lister.strings;
        let Some(entry) = strings.string_at(id as usize) else {
            return put_decimal(out, k, id);
        };
        return strings::escapes::put_quoted(out, k, strings.part(entry.start, entry.end));
    }
    put_decimal(out, k, id)
}

// What stands in front of a number: r for a register, L for a target. Its length, and its byte.
fn front_size(family: Family) -> usize
    ensures { (result ≡ length (front_text (family_number family))) × (result ≤ 1) }
{
    match family {
        Family::Reg => 1,
        Family::Addr => 1,
        _ => 0,
    }
}

fn front_byte(family: Family) -> u64
    ensures { le_bytes (length (front_text (family_number family))) result ≡ front_text (family_number family) }
{
    match family {
        Family::Reg => 114,
        _ => 76,
    }
}

// Whether numbers of a family have a sign.
fn is_signed(family: Family) -> bool
    ensures { result ≡ signed_family (family_number family) }
{
    match family {
        Family::Addr => true,
        Family::Imm32 => true,
        _ => false,
    }
}

// Writes a number of a family with what stands in front of it, by the same steps whatever the family, since a branch costs more. A
// Double is no such number.
fn put_number(out: &mut [u8], k: usize, family: Family, n: u64) -> usize
    requires { (n < 4294967296) × (family ≡ Family.Double → ⊥) }
    ensures { ByWords out.old k (front_text (family_number family) ++ value_text (family_number family) n) out.new result }
{
    let a = put_word(out, k, front_size(family), front_byte(family));
    put_signed(out, a, is_signed(family), n)
}

// The number that is printed: an Addr's target, else the bits.
fn number_of(at: usize, family: Family, code: u8, bits: u64) -> u64
    requires { (at ≤ body_limit) × (family_number family ≡ family_of code) × (bits < 256 ^ width_of code) × (bits < 4294967296) }
    ensures { (result ≡ pick (eqb (family_of code) addr_family) (target_of at code bits) bits) × (result < 4294967296) }
{
    match family {
        Family::Addr => target_of(at, code, bits) as u64,
        _ => bits,
    }
}

// Writes an operand of the instruction at `at`.
fn put_operand(
    lister: &Lister<'_>,
    out: &mut [u8],
    k: usize,
    at: usize,
    code: u8,
    bits: u64,
) -> usize
    requires { (at ≤ body_limit) × (bits < 256 ^ width_of code) }
    ensures { ByWords out.old k (operand_text lister.now.options.resolve_strings lister.now.strings.bytes.now lister.now.strings.ends.now at code bits) out.new result }
{
    let family = sheet::operand_types::family(code);
    match family {
        Family::Str => put_string(lister, out, k, bits),
        Family::NoOperand => numbers::print_double::put_double(out, k, bits),
        Family::Double => numbers::print_double::put_double(out, k, bits),
        _ => put_number(out, k, family, number_of(at, family, code, bits)),
    }
}

// Writes what stands in front of the operand i: a space, and a comma before it from the second on.
fn put_separator(out: &mut [u8], k: usize, i: usize) -> usize
    ensures { ByWords out.old k (pick (eqb i 0) (text " ") (text ", ")) out.new result }
{
    if i == 0 {
        return put_word(out, k, 1, 32);
    }
    put_word(out, k, 2, 0x202c)
}

// Writes the operands of the instruction at `at`, whose types are the row's.
pub(crate) fn put_operands(
    lister: &Lister<'_>,
    out: &mut [u8],
    k: usize,
    row: [u8; 8],
    s: &[u8],
    at: usize,
) -> usize
    requires { (at + length_of row ≤ length s.now) × (length s.now ≤ body_limit) }
    ensures { ByWords out.old k (operand_texts lister.now.options.resolve_strings lister.now.strings.bytes.now lister.now.strings.ends.now at (text " ") row (pairs row s.now (at + 1))) out.new result }
{
    let mut n = k;
    let mut p = at + 1;
    for (i, &code) in row.iter().enumerate() {
        if code == 0 {
            return n;
        }
        let bits = operand::read::read_bits(code, s, p);
        n = put_separator(out, n, i);
        n = put_operand(lister, out, n, at, code, bits);
        p += sheet::operand_types::width(code);
    }
    n
}
