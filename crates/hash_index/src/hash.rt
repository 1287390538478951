// A hash by all bytes of a text, four at a time.
ghost use Rattle.std.specs.Prelude.{◌≡◌, ◌≤◌, ◌<◌, length};
ghost use Rattle.hash_index.specs.Hash.{hash_with, hash_long, hash_of, bucket_of};

use numbers::little_endian::{four_bytes, read_le};

// Four bytes more. The factor is odd and below 2^31, so that the product fits; the middle of the product depends on every bit, so that
// texts that differ little lie apart.
fn hash_with(h: u64, x: u64) -> u64
    requires { (h < 4294967296) × (x < 4294967296) }
    ensures { (result ≡ hash_with h x) × (result < 4294967296) }
{
    (h + x) * 1327217885 / 1048576 % 4294967296
}

// A text of four bytes or more. Its last four are read as a whole, so that none is left over.
fn hash_long(s: &[u8]) -> u64
    requires { 4 ≤ length s.now }
    ensures { result ≡ hash_long s.now }
{
    let mut h = (s.len() % 4294967296) as u64;
    let mut i: usize = 0;
    while 4 < s.len() - i {
        let x = four_bytes(s, i);
        h = hash_with(h, x);
        i += 4;
    }
    let last = four_bytes(s, s.len() - 4);
    hash_with(h, last)
}

// A number below 65536 by all bytes of a text.
pub fn hash_of(s: &[u8]) -> usize
    ensures { (result ≡ hash_of s.now) × (result < 65536) }
{
    let n = s.len();
    if n < 4 {
        let x = read_le(s, 0, n);
        return (hash_with(n as u64, x) % 65536) as usize;
    }
    (hash_long(s) % 65536) as usize
}

// The bucket of a text among m. The hash is scaled to them, since a division by m takes longer.
pub fn bucket_of(s: &[u8], m: usize) -> usize
    requires { (0 < m) × (m < 4294967296) }
    ensures { (result ≡ bucket_of m s.now) × (result < m) }
{
    hash_of(s) * m / 65536
}
