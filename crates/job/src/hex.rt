// Bytes in hex, up to the end of their line.
ghost use Rattle.std.specs.Prelude.{◌≡◌, get_or};
ghost use Rattle.spec_numbers.specs.Parse.{digit_value};
ghost use Rattle.spec_job.specs.Hex.{hex_at};
ghost use Rattle.spec_job.specs.Table.{keyed_hex_at};
ghost use Rattle.job.specs.HexAnswers.{Lined};

use numbers::parse::digit_value;

// A line that was read: the place behind it, and the next position of the lent bytes.
#[derive(Clone, Copy)]
pub(crate) struct HexRead {
    pub end: usize,
    pub next: usize,
}

// What the byte at `at` is worth as a digit; 16 where there is no digit or no byte.
#[tactic(auto, unfolding(spec_numbers::specs::Parse::digit_value))]
fn digit_at(s: &[u8], at: usize) -> u8
    ensures { result ≡ digit_value (get_or s.now at 0) }
{
    s.get(at).map_or(16, |&b| digit_value(b))
}

// Writes the bytes of the line at `start` from position `from` on; none where the line is malformed. Two digits make a byte, so that
// the place goes on by two.
pub(crate) fn hex_at(s: &[u8], start: usize, out: &mut [u8], from: usize) -> Option<HexRead>
    ensures { Lined (hex_at s.now start) out.old «from» out.new result }
{
    let mut at = start;
    let mut k = from;
    while at < s.len() {
        if s[at] == 10 {
            return Some(HexRead {
                end: at + 1,
                next: k,
            });
        }
        let high = digit_at(s, at);
        if 15 < high {
            return None;
        }
        let low = digit_at(s, at + 1);
        if 15 < low {
            return None;
        }
        k = slices::write::put_byte(out, k, 16 * high + low);
        at += 2;
    }
    None
}

// The same behind a key, which may be `s=` or `body=`.
pub(crate) fn keyed_hex_at(
    s: &[u8],
    at: usize,
    key: &[u8],
    out: &mut [u8],
    from: usize,
) -> Option<HexRead>
    ensures { Lined (keyed_hex_at key.now s.now at) out.old «from» out.new result }
{
    let behind = sheet::scan::literal_at(s, at, key)?;
    hex_at(s, behind, out, from)
}
