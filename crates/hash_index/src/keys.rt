// An index of keys of any kind, in one lent slice: a head for each bucket, and behind them a next for each key. It answers what a
// search of all keys answers.
ghost use Rattle.std.specs.Prelude.{◌≡◌, ℕ, List, Option, Some, None, ◌+◌, ◌≤◌, ◌<◌, ◌^◌, length, MatchOption};
ghost use Rattle.hash_index.specs.Keys.{KeysIndexed, first_key, is_key};

use crate::chain::{empty_heads, index_at, put_in_front};
use crate::hash::bucket_of;
use slices::compare::same_bytes;

// Keys by number: so many texts, some of which may be gaps.
pub trait Keys {
    ghost amount: { Self → ℕ };

    ghost key_at: { Self → ℕ → Option (List ℕ) };

    // How many there are.
    fn count(&self) -> usize
        ensures { result ≡ amount self.now };

    // The text of a key, or that there is a gap.
    fn key(&self, i: usize) -> Option<&[u8]>
        requires { i < amount self.now }
        ensures { MatchOption result (key_at self.now i ≡ None) (λ text. key_at self.now i ≡ Some text.now) };
}

// Puts all keys into chains of m buckets, from the last key down, so that the first of equal keys is found.
pub fn index_keys<K: Keys>(keys: &K, m: usize, index: &mut [u32])
    requires { (0 < m) × (m < 2 ^ 32) × (K.amount keys.now < 2 ^ 32) × (m + K.amount keys.now ≤ length index.old) }
    ensures { KeysIndexed (K.key_at keys.now) m (K.amount keys.now) index.new }
{
    let n = keys.count();
    empty_heads(index, m, n);
    for i in (0..n).rev() {
        if let Some(text) = keys.key(i) {
            let h = bucket_of(text, m);
            put_in_front(index, m, h, i);
        }
    }
}

// Whether a key is a text.
fn is_key<K: Keys>(keys: &K, i: usize, text: &[u8]) -> bool
    requires { i < K.amount keys.now }
    ensures { result ≡ is_key text.now (K.key_at keys.now i) }
{
    keys.key(i).is_some_and(|key| same_bytes(key, text))
}

// The first key that is a text.
pub fn find_key<K: Keys>(keys: &K, m: usize, index: &[u32], text: &[u8]) -> Option<usize>
    requires { (0 < m) × (m < 2 ^ 32) × KeysIndexed (K.key_at keys.now) m (K.amount keys.now) index.now }
    ensures { result ≡ first_key (K.key_at keys.now) (K.amount keys.now) text.now }
{
    let n = keys.count();
    let h = bucket_of(text, m);
    let mut i = index_at(index, h);
    while i < n {
        if is_key(keys, i, text) {
            return Some(i);
        }
        i = index_at(index, m + i);
    }
    None
}
