// Bytes written by whole words of eight: a number's, and a part of a text.
ghost use Rattle.std.specs.Prelude.{◌≡◌, ◌+◌, ◌-◌, ◌≤◌, min, length, nat_le};
ghost use Rattle.lists.specs.Scan.{part};
ghost use Rattle.lists.specs.Write.{ByWords};
ghost use Rattle.spec_numbers.specs.LittleEndian.{le_bytes};

use crate::little_endian::{eight_bytes, put_eight, put_le};

// Whether n bytes from `at` on and eight more are within `len`.
pub(crate) fn has_room(len: usize, at: usize, n: usize) -> bool
    ensures { result ≡ nat_le (at + n + 8) len }
{
    8 <= len && n <= len - 8 && at <= len - 8 - n
}

// Writes the first w bytes of v by one store of eight: what stands behind them is written over by what follows, and no branch depends
// on w.
pub(crate) fn set_word(out: &mut [u8], at: usize, w: usize, v: u64) -> usize
    requires { (w ≤ 8) × (at + 8 ≤ length out.old) }
    ensures { ByWords out.old at (le_bytes w v) out.new result }
{
    put_eight(out, at, v);
    at + w
}

// The same where there is room for eight, else byte by byte.
pub fn put_word(out: &mut [u8], at: usize, w: usize, v: u64) -> usize
    requires { w ≤ 8 }
    ensures { ByWords out.old at (le_bytes w v) out.new result }
{
    if has_room(out.len(), at, 0) {
        return set_word(out, at, w, v);
    }
    put_le(out, at, w, v)
}

// The length of the next word of n bytes that are left.
fn word_size(n: usize) -> usize
    ensures { result ≡ min n 8 }
{
    n.min(8)
}

// Writes the next word of the n bytes of s from `at` on, of which k are written.
fn put_next(out: &mut [u8], to: usize, s: &[u8], at: usize, n: usize, k: usize) -> usize
    requires { (at + n + 8 ≤ length s.now) × (k ≤ n) }
    ensures { ByWords out.old to (part s.now (at + k) (min (n - k) 8)) out.new result }
{
    put_word(out, to, word_size(n - k), eight_bytes(s, at + k))
}

// Writes those that are left of the n bytes of s from `at` on, of which `from` are written.
fn put_rest(out: &mut [u8], to: usize, s: &[u8], at: usize, n: usize, from: usize) -> usize
    requires { (at + n + 8 ≤ length s.now) × («from» ≤ n) }
    ensures { ByWords out.old to (part s.now (at + «from») (n - «from»)) out.new result }
{
    let mut k = to;
    let mut done = from;
    while done < n {
        k = put_next(out, k, s, at, n, done);
        done += word_size(n - done);
    }
    k
}

// Writes the n bytes of s from `at` on by words, the first two without a test, since most names have at most sixteen bytes.
fn put_words(out: &mut [u8], to: usize, s: &[u8], at: usize, n: usize) -> usize
    requires { at + n + 8 ≤ length s.now }
    ensures { ByWords out.old to (part s.now at n) out.new result }
{
    let k = put_next(out, to, s, at, n, 0);
    let one = word_size(n);
    let m = put_next(out, k, s, at, n, one);
    let two = one + word_size(n - one);
    put_rest(out, m, s, at, n, two)
}

// Writes a part of s, by words where eight more bytes stand behind it, as they do but at the end of s.
pub fn put_part(out: &mut [u8], to: usize, s: &[u8], at: usize, n: usize) -> usize
    ensures { ByWords out.old to (part s.now at n) out.new result }
{
    if has_room(s.len(), at, n) {
        return put_words(out, to, s, at, n);
    }
    let rest = slices::part::part_of(s, at, n);
    slices::write::put_bytes(out, to, rest)
}
