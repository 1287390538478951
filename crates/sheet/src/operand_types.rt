// The twelve operand types by their codes.
ghost use Rattle.std.specs.Prelude.{◌≡◌, get_or};
ghost use Rattle.std.specs.List.{position};
ghost use Rattle.lists.specs.Scan.{same};
ghost use Rattle.spec_sheet.specs.Types.{type_code, width_of, family_of, kind_of};
ghost use Rattle.sheet.specs.Families.{family_number};
ghost use Rattle.sheet.specs.TypeWords.{code_in};

use crate::family::Family;
use slices::compare::same_bytes;

// Two codes that other crates name. Codes stay bytes, as document 01's arrays have them.
pub const ADDR8: u8 = 9;

pub const DOUBLE: u8 = 12;

// The first of some texts that is the word.
fn index_of(texts: &[&[u8]], word: &[u8]) -> Option<usize>
    ensures { result ≡ position (λ t. same word.now t.now) texts.now }
{
    texts.iter().position(|&text| same_bytes(word, text))
}

// The code of a type's name: the names stand in the order of their codes, from 1.
pub fn type_code(word: &[u8]) -> Option<u8>
    ensures { result ≡ code_in (type_code word.now) }
{
    let names: [&[u8]; 12] = [
        b"Reg8", b"Reg32", b"UInt8", b"UInt16", b"UInt32", b"UInt8S", b"UInt16S", b"UInt32S",
        b"Addr8", b"Addr32", b"Imm32", b"Double",
    ];
    let i = index_of(&names, word)?;
    Some(i as u8 + 1)
}

// An entry of a table by type code, and 0 behind its end. A table is made anew at each use, so that these are thirteen bytes
// and not words; a loop over many codes makes its own table once, as the decoder does.
fn entry(table: &[u8], code: u8) -> u8
    ensures { result ≡ get_or table.now code 0 }
{
    let c = code as usize;
    if c < table.len() { table[c] } else { 0 }
}

// The bytes of an operand.
pub fn width(code: u8) -> usize
    ensures { result ≡ width_of code }
{
    entry(
        b"\x00\x01\x04\x01\x02\x04\x01\x02\x04\x01\x04\x04\x08",
        code,
    ) as usize
}

// The family that a carry keeps.
pub fn family(code: u8) -> Family
    ensures { family_number result ≡ family_of code }
{
    match code {
        1..=2 => Family::Reg,
        3..=5 => Family::UInt,
        6..=8 => Family::Str,
        9..=10 => Family::Addr,
        11 => Family::Imm32,
        12 => Family::Double,
        _ => Family::NoOperand,
    }
}

// The kind of value that an operand is decoded to: a number, since a record holds it so (document 01).
pub fn kind(code: u8) -> u8
    ensures { result ≡ kind_of code }
{
    entry(
        b"\x00\x00\x02\x00\x01\x02\x00\x01\x02\x03\x04\x04\x05",
        code,
    )
}
