// Escapes as the listing prints them: escape_js_string of util.rs. A writer takes `out` and the position in it, since the position goes
// on where `out` ends (slices::write).
ghost use Rattle.std.specs.Prelude.{◌≡◌, [], ◌∷◌, ◌<◌};
ghost use Rattle.lists.specs.Choice.{pick, within};
ghost use Rattle.lists.specs.Scan.{all};
ghost use Rattle.lists.specs.Write.{Put};
ghost use Rattle.spec_strings.specs.Utf8.{lead_bits, bits_after};
ghost use Rattle.spec_strings.specs.Escape.{unicode, escape, escape_text, quoted};
ghost use Rattle.strings.specs.Turns.{short_or, whole_text, carried_bits, bare};
ghost use Rattle.strings.specs.States.{state_number};

use crate::utf8::State;
use numbers::print_hex::{put_hex_upper, put_hex_upper4};
use slices::write::{put_byte, put_bytes};

// A character by its number: four digits, or as many as it takes between braces.
fn put_unicode(out: &mut [u8], at: usize, c: u32) -> usize
    ensures { Put out.old at (unicode c) out.new result }
{
    if c <= 65535 {
        let a = put_bytes(out, at, b"\\u");
        return put_hex_upper4(out, a, c as u64);
    }
    let a = put_bytes(out, at, b"\\u{");
    let b = put_hex_upper(out, a, c as u64);
    put_byte(out, b, b'}')
}

// What stands behind the backslash for a character that has a short escape.
#[tactic(auto, using(std::proofs::lemmas::Bool::Decides::nat_tests), unfolding(spec_strings::specs::Escape::escape))]
fn letter_of(c: u32) -> Option<u8>
    ensures { escape c ≡ short_or result (pick (within 32 126 c) (c ∷ []) (unicode c)) }
{
    match c {
        34 => Some(b'"'),
        92 => Some(b'\\'),
        10 => Some(b'n'),
        13 => Some(b'r'),
        9 => Some(b't'),
        0 => Some(b'0'),
        _ => None,
    }
}

// A character that has no short escape.
fn put_shown(out: &mut [u8], at: usize, c: u32) -> usize
    ensures { Put out.old at (pick (within 32 126 c) (c ∷ []) (unicode c)) out.new result }
{
    match c {
        32..=126 => put_byte(out, at, c as u8),
        _ => put_unicode(out, at, c),
    }
}

pub fn put_escaped(out: &mut [u8], at: usize, c: u32) -> usize
    ensures { Put out.old at (escape c) out.new result }
{
    let Some(letter) = letter_of(c) else {
        return put_shown(out, at, c);
    };
    let a = put_byte(out, at, b'\\');
    put_byte(out, a, letter)
}

#[tactic(auto, using(std::proofs::lemmas::Bool::Decides::nat_tests), unfolding(spec_strings::specs::Utf8::lead_bits))]
fn lead_bits(b: u8) -> u32
    ensures { result ≡ lead_bits b }
{
    let n = b as u32;
    match b {
        0..=127 => n,
        128..=191 => 0,
        192..=223 => n - 192,
        224..=239 => n - 224,
        240..=255 => n - 240,
    }
}

#[tactic(auto, using(std::proofs::lemmas::Bool::Decides::nat_tests), unfolding(spec_strings::specs::Utf8::bits_after))]
fn bits_after(state: State, acc: u32, b: u8) -> u32
    requires { acc < 32768 }
    ensures { result ≡ bits_after (state_number state) acc b }
{
    if state.is_between() {
        return lead_bits(b);
    }
    let n = b as u32;
    acc * 64 + n.saturating_sub(128)
}

// Writes the character if the state says that it is whole.
fn put_whole(out: &mut [u8], at: usize, state: State, c: u32) -> usize
    ensures { Put out.old at (whole_text (state_number state) c) out.new result }
{
    if state.is_between() {
        return put_escaped(out, at, c);
    }
    at
}

// The bits that are carried on: none behind a whole character.
fn carried(state: State, bits: u32) -> u32
    ensures { result ≡ carried_bits (state_number state) bits }
{
    if state.is_between() { 0 } else { bits }
}

// One pass over the bytes: the reader's state, and the bits of the character begun.
fn put_characters(out: &mut [u8], at: usize, s: &[u8]) -> usize
    ensures { Put out.old at (escape_text s.now) out.new result }
{
    let mut k = at;
    let mut state = State::Between;
    let mut acc: u32 = 0;
    for &b in s {
        let next = state.step(b);
        if next.is_broken() {
            return k;
        }
        let bits = bits_after(state, acc, b);
        k = put_whole(out, k, next, bits);
        acc = carried(next, bits);
        state = next;
    }
    k
}

// The bytes that are whole characters and stand for themselves: 32 to 126 but for the quote and the backslash.
const BARE: [u64; 4] = [0xffff_fffb_0000_0000, 0x7fff_ffff_efff_ffff, 0, 0];

// The clause says what the class stands for, so that the caller doesn't.
fn all_bare(s: &[u8]) -> bool
    ensures { result ≡ all bare s.now }
{
    slices::class::all_in(s, BARE)
}

// Writes a text with its escapes. Most have none and are copied.
pub fn put_escaped_text(out: &mut [u8], at: usize, s: &[u8]) -> usize
    ensures { Put out.old at (escape_text s.now) out.new result }
{
    if all_bare(s) {
        return put_bytes(out, at, s);
    }
    put_characters(out, at, s)
}

pub fn put_quoted(out: &mut [u8], at: usize, s: &[u8]) -> usize
    ensures { Put out.old at (quoted s.now) out.new result }
{
    let a = put_byte(out, at, b'"');
    let b = put_escaped_text(out, a, s);
    put_byte(out, b, b'"')
}
