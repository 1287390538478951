// Some bytes as one number, the first the lowest. Each is the sum of two halves, which compiles to one load.
ghost use Rattle.std.specs.Prelude.{◌≡◌, ◌+◌, ◌≤◌, ◌<◌, length};
ghost use Rattle.slices.specs.Words.{two_at, four_at};

use crate::widen::wide_byte;

fn two_at(s: &[u8], at: usize) -> u64
    requires { at + 2 ≤ length s.now }
    ensures { (result ≡ two_at s.now at) × (result < 65536) }
{
    wide_byte(s[at]) + wide_byte(s[at + 1]) * 256
}

pub fn four_at(s: &[u8], at: usize) -> u64
    requires { at + 4 ≤ length s.now }
    ensures { (result ≡ four_at s.now at) × (result < 4294967296) }
{
    two_at(s, at) + two_at(s, at + 2) * 65536
}
