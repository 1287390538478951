// The lines of a text, and the refusals of lines that are too long or no text.
ghost use Rattle.std.specs.Prelude.{◌≡◌, ◌+◌, ◌≤◌, length, drop};
ghost use Rattle.std.specs.List.{prefix_len};
ghost use Rattle.lists.specs.Scan.{run, all};
ghost use Rattle.spec_hasm.specs.Text.{lines_of};
ghost use Rattle.spec_hasm.specs.Assemble.{Assembled, is_text_byte, unless_bad_line};
ghost use Rattle.hasm_read.specs.Lines.{not_feed, line_length, line_in};
ghost use Rattle.hasm_read.specs.Refusals.{checked_or};

use answers::refusal::Refusal;

// How many bytes stand before the next LF.
fn feed_distance(s: &[u8]) -> usize
    ensures counted { result ≡ prefix_len not_feed s.now }
    ensures inside { result ≤ length s.now }
{
    s.iter().take_while(|&&b| b != b'\n').count()
}

// Where the next LF stands, or the end.
#[tactic(auto, using(crate::proofs::RunLaws::run_at))]
pub fn line_end(s: &[u8], at: usize) -> usize
    requires { at ≤ length s.now }
    ensures { (result ≡ at + run not_feed (drop at s.now)) × (result ≤ length s.now) }
{
    at + feed_distance(&s[at..])
}

// How many bytes the line has, without a CR where an LF follows.
#[tactic(auto, unfolding(crate::specs::Lines::line_length))]
fn line_length(s: &[u8], at: usize, end: usize) -> usize
    ensures { result ≡ line_length s.now at end }
{
    let size = end.saturating_sub(at);
    if at < end && end < s.len() && s[end - 1] == b'\r' {
        return size - 1;
    }
    size
}

// The line from `at` to its end.
pub fn line_of(s: &[u8], at: usize, end: usize) -> &[u8]
    ensures { result.now ≡ line_in s.now at end }
{
    let n = line_length(s, at, end);
    slices::part::part_of(s, at, n)
}

// The bytes of a text: TAB, LF, CR and 32 to 126.
const TEXT: [u64; 4] = [0xffff_ffff_0000_2600, 0x7fff_ffff_ffff_ffff, 0, 0];

fn is_text(line: &[u8]) -> bool
    ensures { result ≡ all is_text_byte line.now }
{
    slices::class::all_in(line, TEXT)
}

// Refuses the first line that is too long (3) or no text (2).
pub fn check_lines(text: &[u8]) -> Result<(), Refusal>
    ensures { (rest : Assembled) → unless_bad_line 1 (lines_of text.now) rest ≡ checked_or result rest }
{
    // A line's end says where the next one starts, so the places are followed and not counted.
    let mut at: usize = 0;
    let mut n: usize = 1;
    while at < text.len() {
        let end = line_end(text, at);
        let line = line_of(text, at, end);
        let long = limits::LINE_LIMIT < line.len();
        let good = is_text(line);
        if long {
            return Err(Refusal::LongLine(n));
        }
        if !good {
            return Err(Refusal::BadByte(n));
        }
        at = end + 1;
        n += 1;
    }
    Ok(())
}
