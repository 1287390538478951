// A part of a slice.
ghost use Rattle.std.specs.Prelude.{◌≡◌};
ghost use Rattle.lists.specs.Scan.{part};

// The n bytes from `at` on, or as many as there are.
pub fn part_of(s: &[u8], at: usize, n: usize) -> &[u8]
    ensures { result.now ≡ part s.now at n }
{
    let len = s.len();
    if len <= at {
        return &s[len..];
    }
    if len - at <= n {
        return &s[at..];
    }
    let end = at + n;
    &s[at..end]
}
