// Scans that pass over what stands in quotes.
ghost use Rattle.std.specs.Prelude.{◌≡◌, ◌+◌, ◌≤◌, ◌<◌, ℕ, Bool, List, length, drop};
ghost use Rattle.limits.specs.Limits.{line_limit};
ghost use Rattle.hasm_read.specs.Quotes.{byte_before, quote_at, outside_by, inside_by};

// Whether a quote stands at i. The byte before is looked at only behind a quote, as most bytes are none.
#[tactic(auto, using(crate::proofs::QuoteLaws::quote_laws))]
pub(crate) fn is_quote_at(s: &[u8], i: usize, escapes: bool) -> bool
    requires { i < length s.now }
    ensures { result ≡ quote_at escapes s.now i }
{
    if s[i] != b'"' {
        return false;
    }
    if !escapes || i == 0 {
        return true;
    }
    s[i - 1] != b'\\'
}

// What such a scan is: whether a backslash before a quote counts, and where it stops outside quotes.
pub(crate) trait Scan {
    ghost escapes: { Bool };

    ghost stop: { List ℕ → Bool };

    fn is_quote(s: &[u8], i: usize) -> bool
        requires { i < length s.now }
        ensures { result ≡ quote_at escapes s.now i };

    fn stops(s: &[u8], i: usize) -> bool
        requires { i < length s.now }
        ensures { result ≡ stop (drop i s.now) };
}

// Where the scan stops, or the line's end, from a place outside quotes on. Each quote takes stack, so the contracts ask for a
// line within 3's limit.
#[cycle(scan)]
pub(crate) fn outside_quotes<S: Scan>(s: &[u8], at: usize) -> usize
    requires at_in_bounds { at ≤ length s.now }
    requires s_len_bound { length s.now ≤ line_limit }
    ensures { (result ≡ at + outside_by S.escapes S.stop (byte_before s.now at) (drop at s.now)) × (result ≤ length s.now) }
{
    for i in at..s.len() {
        if S::is_quote(s, i) {
            return inside_quotes::<S>(s, i + 1);
        }
        if S::stops(s, i) {
            return i;
        }
    }
    s.len()
}

// The same from a place inside quotes on.
#[cycle(scan)]
fn inside_quotes<S: Scan>(s: &[u8], at: usize) -> usize
    requires at_in_bounds { at ≤ length s.now }
    requires s_len_bound { length s.now ≤ line_limit }
    ensures { (result ≡ at + inside_by S.escapes S.stop (byte_before s.now at) (drop at s.now)) × (result ≤ length s.now) }
{
    for i in at..s.len() {
        if S::is_quote(s, i) {
            return outside_quotes::<S>(s, i + 1);
        }
    }
    s.len()
}
