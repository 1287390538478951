// The space lent to a call: how it is before the call, and whether it is afterwards as recorded.
ghost use Rattle.std.specs.Prelude.{◌≡◌, length, replicate};
ghost use Rattle.lists.specs.Write.{put};
ghost use Rattle.replay.specs.Words.{numbers_over, bytes_of};
ghost use Rattle.replay.specs.Lent.{all_are, left_as};

use numbers::little_endian::{put_le, read_le};

// The byte that lent space holds before a call.
pub const FILL: u8 = 0xA5;

// Whether every byte is b.
fn all_are(s: &[u8], b: u8) -> bool
    ensures { result ≡ all_are b s.now }
{
    s.iter().all(|&x| x == b)
}

// Whether a call that answered `number` left the lent bytes as expected.
#[tactic(auto, using(lists::proofs::Links::opens_starts), unfolding(crate::specs::Lent::left_as))]
pub fn is_left(lent: &[u8], expected: &[u8], number: u64) -> bool
    ensures { result ≡ left_as lent.now expected.now number }
{
    if !lent.starts_with(expected) {
        return false;
    }
    if number == 0 {
        return all_are(&lent[expected.len()..], FILL);
    }
    all_are(lent, 0)
}

// Sets the words to those whose little-endian bytes s holds, as far as both go.
pub fn words_of(s: &[u8], words: &mut [u64])
    ensures { words.new ≡ numbers_over 8 s.now words.old }
{
    let n = words.len().min(s.len() / 8);
    for i in 0..n {
        words[i] = read_le(s, 8 * i, 8);
    }
}

// Writes the words' little-endian bytes to the front of out, as far as they fit.
pub fn bytes_of(words: &[u64], out: &mut [u8])
    ensures { out.new ≡ put out.old 0 (bytes_of 8 words.now) }
{
    let mut at = 0;
    for &word in words {
        at = put_le(out, at, 8, word);
    }
}
