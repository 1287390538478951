// Building the chains, all buckets empty, then each index from the last down in front of its chain; and following them.
ghost use Rattle.std.specs.Prelude.{◌≡◌, ◌++◌, ◌+◌, ◌≤◌, ◌<◌, ◌^◌, length, drop, get_or, set, replicate};

use slices::widen::wide;

// Every chain of an index of m buckets ends at once: its head is n, which is no index.
pub fn empty_heads(index: &mut [u32], m: usize, n: usize)
    requires { (m ≤ length index.old) × (n < 2 ^ 32) }
    ensures { index.new ≡ replicate m n ++ drop m index.old }
{
    index[..m].fill(n as u32);
}

// Puts i in front of the chain of bucket h. The nexts stand behind the m heads.
pub fn put_in_front(index: &mut [u32], m: usize, h: usize, i: usize)
    requires { (h < m) × (m + i < length index.old) × (i < 2 ^ 32) }
    ensures { index.new ≡ set (set index.old (m + i) (get_or index.old h 0)) h i }
{
    index[m + i] = index[h];
    index[h] = i as u32;
}

// An element as an index, as heads and nexts are.
pub fn index_at(s: &[u32], i: usize) -> usize
    requires { i < length s.now }
    ensures { result ≡ get_or s.now i 0 }
{
    wide(s[i])
}
