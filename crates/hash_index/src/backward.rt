// Chains that go from the last key to the first, so that a key is put in front of its chain when it is met. The buckets' heads stand
// in front, and behind them a word for each key: a number of the key's own, and in the high bits 1 more than the next key.
ghost use Rattle.std.specs.Prelude.{◌≡◌, ◌++◌, ◌+◌, ◌*◌, ◌/◌, ◌≤◌, ◌<◌, length, drop, get_or, set, replicate};
ghost use Rattle.hash_index.specs.Backward.{next_unit, key_limit};

// What 1 more of a next adds to a key's word.
const NEXT_UNIT: u64 = 140_737_488_355_328;

// The heads and the nexts are below 2^17.
pub const KEY_LIMIT: usize = 131_071;

// Every chain of an index of m buckets is empty.
pub fn empty_chains(index: &mut [u64], m: usize)
    requires { m ≤ length index.old }
    ensures { index.new ≡ replicate m 0 ++ drop m index.old }
{
    index[..m].fill(0);
}

// Puts key k, with a number of its own, in front of the chain of bucket h.
pub fn put_key(index: &mut [u64], m: usize, h: usize, k: usize, own: u64)
    requires { (h < m) × (m + k < length index.old) × (k < key_limit) × (own < next_unit) × (get_or index.old h 0 ≤ key_limit) }
    ensures { index.new ≡ set (set index.old (m + k) (own + get_or index.old h 0 * next_unit)) h (k + 1) }
{
    index[m + k] = own + index[h] * NEXT_UNIT;
    index[h] = (k + 1) as u64;
}

// A head: 1 more than the last key of its chain, or 0.
pub fn head_at(index: &[u64], h: usize) -> usize
    requires { h < length index.now }
    ensures { result ≡ get_or index.now h 0 }
{
    index[h] as usize
}

// What stands behind a key in its chain: 1 more than the next key, or 0.
pub fn next_in(word: u64) -> usize
    ensures { result ≡ word / next_unit }
{
    (word / NEXT_UNIT) as usize
}
