// A line without its comment.
ghost use Rattle.std.specs.Prelude.{◌≡◌, ◌<◌, ◌≤◌, true, length, drop};
ghost use Rattle.limits.specs.Limits.{line_limit};
ghost use Rattle.spec_hasm.specs.Comment.{is_comment, outside};

use crate::quote::{Scan, is_quote_at, outside_quotes};

// The scan for a comment, which honours a backslash before a quote.
struct Comments;

impl Scan for Comments {
    ghost escapes = { true };

    ghost stop = { is_comment };

    fn is_quote(s: &[u8], i: usize) -> bool {
        is_quote_at(s, i, true)
    }

    fn stops(s: &[u8], i: usize) -> bool {
        is_comment_at(s, i)
    }
}

// Whether two slashes stand at i. Most bytes are none, so what follows is looked at only behind one.
#[tactic(auto, using(crate::proofs::CommentLaws::comment_at, crate::proofs::CommentLaws::last_slash))]
fn is_comment_at(s: &[u8], i: usize) -> bool
    requires { i < length s.now }
    ensures { result ≡ is_comment (drop i s.now) }
{
    if s[i] != b'/' {
        return false;
    }
    i + 1 < s.len() && s[i + 1] == b'/'
}

// How many bytes stand before the comment.
#[tactic(auto, using(crate::proofs::ScanLaws::comment_scan))]
pub(crate) fn comment_start(s: &[u8]) -> usize
    requires { length s.now ≤ line_limit }
    ensures { (result ≡ outside 0 s.now) × (result ≤ length s.now) }
{
    outside_quotes::<Comments>(s, 0)
}
