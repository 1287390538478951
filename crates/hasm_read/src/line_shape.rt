// Lines that are skipped, and labels. Both are asked of a line without its comment and the white space around it; the test for a
// label is asked of the whole line too.
ghost use Rattle.std.specs.Prelude.{◌≡◌};
ghost use Rattle.std.specs.List.{list_all};
ghost use Rattle.spec_sheet.specs.Scan.{is_digit};
ghost use Rattle.spec_hasm.specs.Line.{is_skipped, is_label};

use slices::compare::is_within;

// An empty line or a banner. Most lines are neither, so the first byte is looked at before a text is compared.
#[tactic(auto, using(crate::proofs::ShapeLaws::skip_laws), unfolding(lists::specs::Text::text))]
pub(crate) fn is_skipped(s: &[u8]) -> bool
    ensures { result ≡ is_skipped s.now }
{
    if s.is_empty() {
        return true;
    }
    match s[0] {
        b'f' => s.starts_with(b"function "),
        b';' => s.starts_with(b"; "),
        b'F' => s.starts_with(b"Function"),
        _ => false,
    }
}

fn all_digits(s: &[u8]) -> bool
    ensures { result ≡ list_all is_digit s.now }
{
    s.iter().all(|&b| is_within(48, 57, b))
}

// `L`, digits or none, and a colon.
#[tactic(auto, using(crate::proofs::ShapeLaws::label_laws))]
pub(crate) fn is_label(s: &[u8]) -> bool
    ensures { result ≡ is_label s.now }
{
    let n = s.len();
    if n < 2 || s[0] != b'L' || s[n - 1] != b':' {
        return false;
    }
    all_digits(&s[1..n - 1])
}
