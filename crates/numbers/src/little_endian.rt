// Little-endian numbers of any number of bytes.
ghost use Rattle.std.specs.Prelude.{◌≡◌, ◌+◌, ◌^◌, ◌<◌, ◌≤◌, length};
ghost use Rattle.lists.specs.Scan.{part};
ghost use Rattle.lists.specs.Write.{put, Put};
ghost use Rattle.spec_numbers.specs.LittleEndian.{le, le_bytes};

use slices::write::put_byte;

// The numbers of four and of eight bytes.
pub fn four_bytes(s: &[u8], at: usize) -> u64
    requires { at + 4 ≤ length s.now }
    ensures { (result ≡ le (part s.now at 4)) × (result < 256 ^ 4) }
{
    slices::words::four_at(s, at)
}

pub(crate) fn eight_bytes(s: &[u8], at: usize) -> u64
    requires { at + 8 ≤ length s.now }
    ensures { (result ≡ le (part s.now at 8)) × (result < 256 ^ 8) }
{
    four_bytes(s, at) + four_bytes(s, at + 4) * 0x1_0000_0000
}

// The number of the n bytes from `at` on, out of the eight bytes that end with them: those in front are shifted out, in
// two steps, since 64 bits at once are too many for a shift.
pub fn read_of_eight(s: &[u8], at: usize, n: usize) -> u64
    requires { (at + n ≤ length s.now) × (n ≤ 8) × (8 ≤ at + n) }
    ensures { result ≡ le (part s.now at n) }
{
    let half = 32 - 4 * n;
    (eight_bytes(s, at + n - 8) >> half) >> half
}

// The same byte by byte, from the last to the first.
fn read_bytes(s: &[u8], at: usize, n: usize) -> u64
    requires { (at + n ≤ length s.now) × (n ≤ 8) }
    ensures { result ≡ le (part s.now at n) }
{
    let mut v: u64 = 0;
    for k in (0..n).rev() {
        v = v * 256 + s[at + k] as u64;
    }
    v
}

// The number of the n bytes from `at` on.
pub fn read_le(s: &[u8], at: usize, n: usize) -> u64
    requires { (at + n ≤ length s.now) × (n ≤ 8) }
    ensures { result ≡ le (part s.now at n) }
{
    if 8 <= at + n {
        return read_of_eight(s, at, n);
    }
    read_bytes(s, at, n)
}

// Writes the w bytes of v.
pub fn put_le(out: &mut [u8], at: usize, w: usize, v: u64) -> usize
    ensures { Put out.old at (le_bytes w v) out.new result }
{
    let mut k = at;
    let mut rest = v;
    for _ in 0..w {
        k = put_byte(out, k, (rest % 256) as u8);
        rest /= 256;
    }
    k
}

// Writes eight bytes, which compiles to one store.
pub fn put_eight(out: &mut [u8], at: usize, v: u64)
    requires { at + 8 ≤ length out.old }
    ensures { out.new ≡ put out.old at (le_bytes 8 v) }
{
    out[at..at + 8].copy_from_slice(&v.to_le_bytes());
}
