// White space, and text without the white space around it.
ghost use Rattle.std.specs.Prelude.{◌≡◌, ◌+◌, ◌≤◌, length, drop, reverse};
ghost use Rattle.std.specs.List.{prefix_len};
ghost use Rattle.lists.specs.Scan.{run};
ghost use Rattle.spec_hasm.specs.Text as definition;
ghost use Rattle.spec_hasm.specs.Text.{is_white, is_solid, solid_length};

// White space as `char::is_whitespace` has it: `is_ascii_whitespace`, and `trim_ascii` with it, leave out byte 11.
#[tactic(auto, unfolding(spec_hasm::specs::Text::is_white))]
pub(crate) fn is_white(b: u8) -> bool
    ensures { result ≡ is_white b }
{
    matches!(b, 9..=13 | b' ')
}

// How many bytes of white space stand in front.
fn white_length(s: &[u8]) -> usize
    ensures counted { result ≡ prefix_len is_white s.now }
    ensures inside { result ≤ length s.now }
{
    s.iter().take_while(|&&b| is_white(b)).count()
}

// How many bytes the word in front has, which white space ends.
fn word_length(s: &[u8]) -> usize
    ensures counted { result ≡ prefix_len is_solid s.now }
    ensures inside { result ≤ length s.now }
{
    s.iter().take_while(|&&b| !is_white(b)).count()
}

// How many bytes of white space stand at the end.
fn white_behind(s: &[u8]) -> usize
    ensures counted { result ≡ prefix_len is_white (reverse s.now) }
    ensures inside { result ≤ length s.now }
{
    s.iter().rev().take_while(|&&b| is_white(b)).count()
}

// The end of the white space at `at`.
#[tactic(auto, using(crate::proofs::RunLaws::run_at))]
pub fn white_end(s: &[u8], at: usize) -> usize
    requires { at ≤ length s.now }
    ensures { (result ≡ at + run is_white (drop at s.now)) × (result ≤ length s.now) }
{
    at + white_length(&s[at..])
}

// The end of the word at `at`.
#[tactic(auto, using(crate::proofs::RunLaws::run_at))]
pub fn word_end(s: &[u8], at: usize) -> usize
    requires { at ≤ length s.now }
    ensures { (result ≡ at + run is_solid (drop at s.now)) × (result ≤ length s.now) }
{
    at + word_length(&s[at..])
}

// How many bytes there are without the white space at the end.
#[tactic(auto, using(crate::proofs::WhiteLaws::solid_is))]
pub(crate) fn solid_length(s: &[u8]) -> usize
    ensures { (result ≡ solid_length s.now) × (result ≤ length s.now) }
{
    s.len() - white_behind(s)
}

#[tactic(auto, using(crate::proofs::WhiteLaws::trim_is))]
pub fn trim(s: &[u8]) -> &[u8]
    ensures { result.now ≡ definition.trim s.now }
{
    let a = white_end(s, 0);
    let t = &s[a..];
    let n = solid_length(t);
    &t[..n]
}
