// Tokens that are strings, by their id in the string table.
ghost use Rattle.std.specs.Prelude.{◌≡◌, false, ◌≤◌, length};
ghost use Rattle.lists.specs.Scan.{all};
ghost use Rattle.answers.specs.declared.refusal.OperandFault.TheVariants as fault;
ghost use Rattle.spec_strings.specs.Escape.{unescape};
ghost use Rattle.spec_strings.specs.Table.{lookup};
ghost use Rattle.spec_hasm.specs.Token.{found_or, string_value};
ghost use Rattle.hasm_tokens.specs.Values.{token_answer};
ghost use Rattle.hasm_tokens.specs.TextValues.{is_literal, meant_in, work_after};

use crate::number_token::unsigned_value;
use answers::refusal::OperandFault;
use strings::text_index::TextIndex;
use strings::unescape::put_unescaped;

// The id of a text, or else the refusal.
#[tactic(auto, using(crate::proofs::TextLaws::id_answer))]
fn id_of(texts: TextIndex<'_>, text: &[u8]) -> Result<u64, OperandFault>
    ensures { result ≡ token_answer (found_or fault.Text (lookup text.now texts.entry.strings.bytes.now texts.entry.strings.ends.now)) }
{
    texts
        .find(text)
        .map(|id| id as u64)
        .ok_or(OperandFault::Text)
}

// All bytes but the backslash.
const LITERAL: [u64; 4] = [
    0xffff_ffff_ffff_ffff,
    0xffff_ffff_efff_ffff,
    0xffff_ffff_ffff_ffff,
    0xffff_ffff_ffff_ffff,
];

// Whether no byte is a backslash. The clause says what the class stands for, so that callers don't.
fn all_literal(s: &[u8]) -> bool
    ensures { result ≡ all is_literal s.now }
{
    slices::class::all_in(s, LITERAL)
}

// The id of what stands between the quotes. A text without a backslash means itself, so it is looked up where it stands.
fn quoted_value(inside: &[u8], texts: TextIndex<'_>, work: &mut [u8]) -> Result<u64, OperandFault>
    requires { length inside.now ≤ length work.old }
    ensures value { result ≡ token_answer (found_or fault.Text (lookup (unescape false inside.now) texts.entry.strings.bytes.now texts.entry.strings.ends.now)) }
    ensures work_after { work.new ≡ meant_in inside.now work.old }
{
    if all_literal(inside) {
        return id_of(texts, inside);
    }
    let n = put_unescaped(work, 0, inside);
    id_of(texts, &work[..n])
}

// The value of a string's token. What a text with a backslash means is left at the front of `work`.
pub fn string_value(t: &[u8], texts: TextIndex<'_>, work: &mut [u8]) -> Result<u64, OperandFault>
    requires { length t.now ≤ length work.old }
    ensures value { result ≡ token_answer (string_value texts.entry.strings.bytes.now texts.entry.strings.ends.now t.now) }
    ensures work_after { work.new ≡ work_after t.now work.old }
{
    match t {
        [b'"', inside @ .., b'"'] => quoted_value(inside, texts, work),
        [b'"', ..] => Err(OperandFault::Quotes),
        _ => unsigned_value(t),
    }
}
