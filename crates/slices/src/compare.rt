// Comparing bytes.
ghost use Rattle.std.specs.Prelude.{◌≡◌, ◌≤◌, length, drop};
ghost use Rattle.lists.specs.Choice.{within};
ghost use Rattle.lists.specs.Scan.{same, opens};

use crate::words::four_at;

// Whether a byte is from lo to hi.
pub fn is_within(lo: u8, hi: u8, b: u8) -> bool
    ensures { result ≡ within lo hi b }
{
    lo <= b && b <= hi
}

// Whether two slices of one length, four bytes or more, hold the same bytes. They are compared by four, and at last the last four, so
// that none is left over.
fn same_long(s: &[u8], t: &[u8]) -> bool
    requires { (4 ≤ length s.now) × (length s.now ≡ length t.now) }
    ensures { result ≡ same s.now t.now }
{
    let mut i: usize = 0;
    while 4 < s.len() - i {
        if four_at(s, i) != four_at(t, i) {
            return false;
        }
        i += 4;
    }
    let last = s.len() - 4;
    four_at(s, last) == four_at(t, last)
}

// Whether two slices hold the same bytes. Lengths are compared first. Fewer than four bytes are compared in a loop of their own: the
// library's comparison takes twice the time on so few.
pub fn same_bytes(s: &[u8], t: &[u8]) -> bool
    ensures { result ≡ same s.now t.now }
{
    if s.len() != t.len() {
        return false;
    }
    if 4 <= s.len() {
        return same_long(s, t);
    }
    for i in 0..s.len() {
        if s[i] != t[i] {
            return false;
        }
    }
    true
}

// Whether s opens with p from `at` on. In a loop, as above: what is asked for has few bytes.
pub fn opens_at(s: &[u8], at: usize, p: &[u8]) -> bool
    ensures { result ≡ opens p.now (drop at s.now) }
{
    if s.len() < at {
        return p.is_empty();
    }
    if s.len() - at < p.len() {
        return false;
    }
    for i in 0..p.len() {
        if s[at + i] != p[i] {
            return false;
        }
    }
    true
}
