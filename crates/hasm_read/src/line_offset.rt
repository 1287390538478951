// An offset in front of an instruction, which is stripped: hex digits that are a token and no name of the sheet.
ghost use Rattle.std.specs.Prelude.{◌≡◌, ℕ, ◌+◌, ◌≤◌, List, length, drop, get_or};
ghost use Rattle.std.specs.List.{prefix_len};
ghost use Rattle.lists.specs.Choice.{pick};
ghost use Rattle.lists.specs.Scan.{run};
ghost use Rattle.spec_inputs.specs.Context.{context_from};
ghost use Rattle.spec_hasm.specs.Text.{is_white};
ghost use Rattle.spec_hasm.specs.Line.{is_hex_digit, is_letter, has_hex_prefix, behind_offset};

use crate::hex_prefix::has_hex_prefix;
use crate::white_space::{is_white, white_end};
use numbers::parse::digit_value;
use sheet::name_index::Names;
use slices::compare::is_within;

// How many bytes `0x` or `0X` take, where one opens s.
#[tactic(auto, using(crate::proofs::MarkLaws::prefix_length))]
fn prefix_length(s: &[u8]) -> usize
    ensures { (result ≡ pick (has_hex_prefix s.now) 2 0) × (result ≤ length s.now) }
{
    if has_hex_prefix(s) { 2 } else { 0 }
}

// How many hex digits stand in front.
fn hex_length(s: &[u8]) -> usize
    ensures counted { result ≡ prefix_len is_hex_digit s.now }
    ensures inside { result ≤ length s.now }
{
    s.iter().take_while(|&&b| digit_value(b) < 16).count()
}

// The end of the hex digits at `at`.
#[tactic(auto, using(crate::proofs::RunLaws::run_at))]
fn hex_end(s: &[u8], at: usize) -> usize
    requires { at ≤ length s.now }
    ensures { (result ≡ at + run is_hex_digit (drop at s.now)) × (result ≤ length s.now) }
{
    at + hex_length(&s[at..])
}

// Whether white space stands at i; none stands behind the end.
#[tactic(auto, unfolding(spec_hasm::specs::Text::is_white))]
fn is_white_at(s: &[u8], i: usize) -> bool
    ensures { result ≡ is_white (get_or s.now i 0) }
{
    i < s.len() && is_white(s[i])
}

// Whether a letter stands at i; none stands behind the end.
fn is_letter_at(s: &[u8], i: usize) -> bool
    ensures { result ≡ is_letter (get_or s.now i 0) }
{
    i < s.len() && (is_within(b'A', b'Z', s[i]) || is_within(b'a', b'z', s[i]))
}

// Where the instruction starts: behind an offset, or 0. The search for the name comes last, as it costs most.
pub(crate) fn behind_offset(s: &[u8], names: Names<'_>) -> usize
    ensures { ((types : List (List ℕ)) (bytes ends : List ℕ) → behind_offset (context_from names.entry.text.now types names.entry.ops.now bytes ends) s.now ≡ drop result s.now) × (result ≤ length s.now) }
{
    let m = prefix_length(s);
    let k = hex_end(s, m);
    if k <= m || !is_white_at(s, k) {
        return 0;
    }
    let a = white_end(s, k);
    if !is_letter_at(s, a) {
        return 0;
    }
    if names.find(&s[m..k]).is_some() { 0 } else { a }
}
