// Operands between commas. The splitter does not honour a backslash: every quote opens or closes.
ghost use Rattle.std.specs.Prelude.{◌≡◌, ◌+◌, ◌≤◌, false, length, drop};
ghost use Rattle.limits.specs.Limits.{line_limit};
ghost use Rattle.spec_hasm.specs.Split.{split_outside, tokens};
ghost use Rattle.hasm_read.specs.Commas.{is_comma, comma_at};

use crate::quote::{Scan, is_quote_at, outside_quotes};
use crate::white_space::trim;

// The scan for a comma.
struct Commas;

impl Scan for Commas {
    ghost escapes = { false };

    ghost stop = { is_comma };

    fn is_quote(s: &[u8], i: usize) -> bool {
        is_quote_at(s, i, false)
    }

    fn stops(s: &[u8], i: usize) -> bool {
        s[i] == b','
    }
}

// Where the first comma outside quotes stands, or the end, from a place outside quotes on, on a line within 3's limit.
#[tactic(auto, using(crate::proofs::ScanLaws::comma_scan))]
pub fn comma_from(s: &[u8], at: usize) -> usize
    requires at_in_bounds { at ≤ length s.now }
    requires s_len_bound { length s.now ≤ line_limit }
    ensures { (result ≡ at + comma_at (drop at s.now)) × (result ≤ length s.now) }
{
    outside_quotes::<Commas>(s, at)
}

// How many operands there are: one for each part, but for a last one that is blank.
pub fn count_operands(s: &[u8]) -> usize
    requires { length s.now ≤ line_limit }
    ensures { result ≡ length (tokens (split_outside s.now)) }
{
    let mut at: usize = 0;
    let mut n: usize = 0;
    loop {
        let k = comma_from(s, at);
        if s.len() <= k {
            let last = trim(&s[at..]);
            return if last.is_empty() { n } else { n + 1 };
        }
        at = k + 1;
        n += 1;
    }
}
