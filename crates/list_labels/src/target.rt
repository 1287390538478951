ghost use Rattle.std.specs.Prelude.{◌≡◌, ◌^◌, ◌<◌, ◌≤◌, eqb};
ghost use Rattle.limits.specs.Limits.{body_limit};
ghost use Rattle.spec_sheet.specs.Types.{width_of, family_of, addr_family};
ghost use Rattle.spec_listing.specs.Operand.{target_of};

use numbers::signed::{sign_extend8, wrapping_target};
use sheet::family::Family;

// Whether a type code is an Addr's.
pub(crate) fn is_addr(code: u8) -> bool
    ensures { result ≡ eqb (family_of code) addr_family }
{
    matches!(sheet::operand_types::family(code), Family::Addr)
}

// The 32 bits of an Addr's target. Code 9 is Addr8, whose distance is a signed byte.
pub fn target_of(at: usize, code: u8, bits: u64) -> u32
    requires { (at ≤ body_limit) × (family_of code ≡ addr_family) × (bits < 256 ^ width_of code) }
    ensures { result ≡ target_of at code bits }
{
    if code == sheet::operand_types::ADDR8 {
        return wrapping_target(at as u32, sign_extend8(bits as u8));
    }
    wrapping_target(at as u32, bits as u32)
}
