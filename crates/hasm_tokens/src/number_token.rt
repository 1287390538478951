// Tokens that are numbers: registers, decimal and hexadecimal numbers, signed numbers and doubles. Each answers the bits of the token's
// value, or what is wrong with the token.
ghost use Rattle.std.specs.Prelude.{◌≡◌};
ghost use Rattle.answers.specs.declared.refusal.OperandFault.TheVariants as fault;
ghost use Rattle.spec_numbers.specs.Parse.{parse_i32};
ghost use Rattle.spec_numbers.specs.Double.{read_double};
ghost use Rattle.spec_hasm.specs.Token.{number_or, register_value, unsigned_value};
ghost use Rattle.hasm_tokens.specs.Values.{token_answer};

use answers::refusal::OperandFault;
use hasm_read::hex_prefix::has_hex_prefix;
use numbers::parse::{parse_hex, parse_i32, parse_u32};
use numbers::read_double::read_double;

#[tactic(auto, using(crate::proofs::TokenLaws::number_answer), unfolding(spec_hasm::specs::Token::register_value))]
pub fn register_value(t: &[u8]) -> Result<u64, OperandFault>
    ensures { result ≡ token_answer (register_value t.now) }
{
    match t {
        [b'r' | b'R', digits @ ..] => parse_u32(digits).ok_or(OperandFault::Register),
        _ => Err(OperandFault::Register),
    }
}

pub fn unsigned_value(t: &[u8]) -> Result<u64, OperandFault>
    ensures { result ≡ token_answer (unsigned_value t.now) }
{
    if has_hex_prefix(t) {
        return parse_hex(&t[2..]).ok_or(OperandFault::Number);
    }
    parse_u32(t).ok_or(OperandFault::Number)
}

#[tactic(auto, using(crate::proofs::TokenLaws::number_answer))]
pub fn signed_value(t: &[u8]) -> Result<u64, OperandFault>
    ensures { result ≡ token_answer (number_or fault.Number (parse_i32 t.now)) }
{
    parse_i32(t).ok_or(OperandFault::Number)
}

// Like signed_value but for the reader and the fault; with both as parameters it would be no plainer than the call.
#[tactic(auto, using(crate::proofs::TokenLaws::number_answer))]
pub fn double_value(t: &[u8]) -> Result<u64, OperandFault>
    ensures { result ≡ token_answer (number_or fault.Double (read_double t.now)) }
{
    read_double(t).ok_or(OperandFault::Double)
}
