// An operand type's name by one word: the eight bytes that open with it.
ghost use Rattle.std.specs.Prelude.{◌≡◌, ◌+◌, ◌%◌, ◌<◌, ◌≤◌, true, false, length, IfSome};
ghost use Rattle.spec_sheet.specs.Scan.{is_name_byte, type_at};
ghost use Rattle.spec_sheet.specs.Scan.Step.{next};
ghost use Rattle.sheet.specs.TypeWords.{Names};

use crate::scan::{Reading, has_left};

// Whether the lowest byte stands before all letters, digits and underscores, as the comma or line end behind a type does.
fn ends_type(v: u64) -> bool
    ensures { result ≡ true → is_name_byte (v % 256) ≡ false }
{
    v % 256 < 48
}

// The code of the type whose name is the n bytes of w.
#[tactic(auto, using(crate::proofs::TypeWordLaws::reg8, crate::proofs::TypeWordLaws::reg32, crate::proofs::TypeWordLaws::uint8, crate::proofs::TypeWordLaws::uint16, crate::proofs::TypeWordLaws::uint32, crate::proofs::TypeWordLaws::uint8_string, crate::proofs::TypeWordLaws::uint16_string, crate::proofs::TypeWordLaws::uint32_string, crate::proofs::TypeWordLaws::addr8, crate::proofs::TypeWordLaws::addr32, crate::proofs::TypeWordLaws::imm32, crate::proofs::TypeWordLaws::double))]
fn code_of(n: usize, w: u64) -> Option<u8>
    ensures { IfSome result (λ code. Names n w code × (0 < code)) }
{
    match (n, w) {
        (4, 0x3867_6552) => Some(1),
        (5, 0x32_3367_6552) => Some(2),
        (5, 0x38_746e_4955) => Some(3),
        (6, 0x3631_746e_4955) => Some(4),
        (6, 0x3233_746e_4955) => Some(5),
        (6, 0x5338_746e_4955) => Some(6),
        (7, 0x53_3631_746e_4955) => Some(7),
        (7, 0x53_3233_746e_4955) => Some(8),
        (5, 0x38_7264_6441) => Some(9),
        (6, 0x3233_7264_6441) => Some(10),
        (5, 0x32_336d_6d49) => Some(11),
        (6, 0x656c_6275_6f44) => Some(12),
        _ => None,
    }
}

// The name of an operand type, where a byte below `0` stands behind it, as a comma or a line end: what it answers is what `type_at`
// answers, but it may answer nothing where that does.
pub(crate) fn quick_type(s: &[u8], at: usize) -> Option<Reading>
    ensures { IfSome result (λ r. type_at s.now at ≡ next r.value r.next) }
{
    if !has_left(s, at, 8) {
        return None;
    }
    let w = numbers::little_endian::read_of_eight(s, at, 8);
    for n in 4..8 {
        if ends_type(w >> (8 * n)) {
            let code = code_of(n, w % (1 << (8 * n)))?;
            return Some(Reading {
                value: code as u64,
                next: at + n,
            });
        }
    }
    None
}
