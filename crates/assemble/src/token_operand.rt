// The value of an operand's token, by the family of its type.
ghost use Rattle.std.specs.Prelude.{◌≡◌, List, ℕ, ◌^◌, ◌≤◌, ◌<◌, length};
ghost use Rattle.lists.specs.Found as search;
ghost use Rattle.answers.specs.declared.refusal.OperandFault.TheVariants as fault;
ghost use Rattle.spec_hasm.specs.Token.{found_or, target_in, distance_to, token_value};
ghost use Rattle.slices.specs.Answers.{found_of};
ghost use Rattle.hasm_labels.specs.Sources.{context_of};
ghost use Rattle.assemble.specs.Contexts.{labels_of, labels_under};
ghost use Rattle.hasm_tokens.specs.Values.{token_answer};

use crate::context::Context;
use answers::refusal::OperandFault;
use hasm_labels::label_target::Labels;
use hasm_tokens::address_token::{Target, distance_to, target_in};
use hasm_tokens::number_token::{double_value, register_value, signed_value, unsigned_value};
use hasm_tokens::text_token::string_value;
use sheet::family::Family;
use sheet::operand_types::{family, width};

// The distance to a label that was found. A distance wraps at 32 bits, so of the label's offset those count.
fn label_distance(width: usize, offset: usize, label: Option<usize>) -> Result<u64, OperandFault>
    requires { offset < 2 ^ 32 }
    ensures { (l : search.Found) → label ≡ found_of l → result ≡ token_answer (distance_to width offset (found_or fault.Address l)) }
{
    let at = label.ok_or(OperandFault::Address)?;
    distance_to(width, offset as u64, (at % 0x1_0000_0000) as u64)
}

// The distance to a jump's target. The label table is asked only where the token does not say the offset itself.
fn target_distance(
    t: &[u8],
    width: usize,
    offset: usize,
    labels: Labels<'_>,
) -> Result<u64, OperandFault>
    requires { offset < 2 ^ 32 }
    ensures { (bytes ends : List ℕ) → result ≡ token_answer (distance_to width offset (target_in (labels_of (context_of labels.entry.source bytes ends) labels.entry.source.text.now) t.now)) }
{
    match target_in(t) {
        Target::Offset(n) => distance_to(width, offset as u64, n),
        Target::Label => label_distance(width, offset, labels.offset_of(t)),
        Target::Bad => Err(OperandFault::Address),
    }
}

// The value of an operand's token in the instruction at `offset`.
#[tactic(auto, using(std::proofs::lemmas::Bool::Decides::nat_tests), unfolding(spec_hasm::specs::Token::token_value, sheet::specs::Families::family_number))]
pub(crate) fn operand_value(
    context: Context<'_>,
    t: &[u8],
    code: u8,
    offset: usize,
    work: &mut [u8],
) -> Result<u64, OperandFault>
    requires work_long { length t.now ≤ length work.old }
    requires offset_bound { offset < 2 ^ 32 }
    ensures { result ≡ token_answer (token_value context.entry.texts.strings.bytes.now context.entry.texts.strings.ends.now (labels_under context.entry) offset code t.now) }
{
    match family(code) {
        Family::Reg => register_value(t),
        Family::UInt => unsigned_value(t),
        Family::Str => string_value(t, context.texts, work),
        Family::Addr => target_distance(t, width(code), offset, context.labels),
        Family::Imm32 => signed_value(t),
        Family::Double | Family::NoOperand => double_value(t),
    }
}
