// Tokens that are jump targets, and the distance to a target.
ghost use Rattle.std.specs.Prelude.{◌≡◌, List, ℕ, ◌^◌, ◌<◌};
ghost use Rattle.lists.specs.Found.{Found};
ghost use Rattle.spec_hasm.specs.Token.{target_in, is_near, distance_to};
ghost use Rattle.spec_hasm.specs.Token.Value.{value};
ghost use Rattle.hasm_tokens.specs.Values.{token_answer};
ghost use Rattle.hasm_tokens.specs.Targets.{target_or};

use answers::refusal::OperandFault;
use numbers::parse::parse_u32;
use numbers::signed::wrapping_distance;

// `L` and a u32; `L` and something else, for which the label table decides; or no `L`. Three cases, so no Option or Result.
#[derive(Clone, Copy)]
pub enum Target {
    Offset(u64),
    Label,
    Bad,
}

pub fn target_in(t: &[u8]) -> Target
    ensures { (labels : List ℕ → Found) → target_in labels t.now ≡ target_or result (labels t.now) }
{
    let [b'L', digits @ ..] = t else {
        return Target::Bad;
    };
    match parse_u32(digits) {
        Some(n) => Target::Offset(n),
        None => Target::Label,
    }
}

// Whether a distance fits a signed byte.
#[tactic(auto, using(std::proofs::lemmas::Bool::Decides::nat_tests), unfolding(spec_hasm::specs::Token::is_near))]
fn is_near(distance: u32) -> bool
    ensures { result ≡ is_near distance }
{
    distance <= 127 || 0xffff_ff80 <= distance
}

// A distance wraps at 32 bits. Four bytes hold every one; one byte holds a near one.
#[tactic(auto, using(std::proofs::lemmas::Bool::Decides::nat_tests), unfolding(spec_hasm::specs::Token::distance_to))]
pub fn distance_to(width: usize, offset: u64, target: u64) -> Result<u64, OperandFault>
    requires { (offset < 2 ^ 32) × (target < 2 ^ 32) }
    ensures { result ≡ token_answer (distance_to width offset (value target)) }
{
    let distance = wrapping_distance(target as u32, offset as u32);
    if width != 4 && !is_near(distance) {
        return Err(OperandFault::Distance);
    }
    Ok(distance as u64)
}
