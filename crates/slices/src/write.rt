// The counting writer: it writes what fits and answers the next position whether or not it fits, so that the space
// needed is known exactly when everything has been written once.
ghost use Rattle.std.specs.Prelude.{[], ◌∷◌, ◌+◌, ◌<◌, ◌≤◌, length};
ghost use Rattle.lists.specs.Write.{Put};

// Writes one byte. The count stops at the largest usize.
pub fn put_byte(out: &mut [u8], at: usize, b: u8) -> usize
    ensures { Put out.old at (b ∷ []) out.new result }
{
    if at < out.len() {
        out[at] = b;
        return at + 1;
    }
    at.saturating_add(1)
}

// Writes the bytes of s where they fit. By a loop: the library's copy_from_slice copies through pointers of which the compiler doesn't
// know that they are apart, so that it calls memmove, and the archive for C needs memcpy and memset alone (tests/host).
fn copy_bytes(out: &mut [u8], at: usize, s: &[u8]) -> usize
    requires { at + length s.now ≤ length out.old }
    ensures { Put out.old at s.now out.new result }
{
    for i in 0..s.len() {
        out[at + i] = s[i];
    }
    at + s.len()
}

// Writes the bytes of s as far as they fit.
fn put_some(out: &mut [u8], at: usize, s: &[u8]) -> usize
    requires { length out.old < at + length s.now }
    ensures { Put out.old at s.now out.new result }
{
    if at < out.len() {
        let room = out.len() - at;
        copy_bytes(out, at, &s[..room]);
    }
    at.saturating_add(s.len())
}

// Writes the bytes of s. That all of them fit is the common case.
pub fn put_bytes(out: &mut [u8], at: usize, s: &[u8]) -> usize
    ensures { Put out.old at s.now out.new result }
{
    if out.len() < s.len() || out.len() - s.len() < at {
        return put_some(out, at, s);
    }
    copy_bytes(out, at, s)
}
