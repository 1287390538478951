// All lines of a body that decodes.
ghost use Rattle.std.specs.Prelude.{◌<◌, ◌≤◌, length};
ghost use Rattle.limits.specs.Limits.{body_limit};
ghost use Rattle.lists.specs.Write.{ByWords};
ghost use Rattle.spec_listing.specs.Labels.{label_offsets};
ghost use Rattle.spec_listing.specs.Listing.{label_line, long_line, listed_text};
ghost use Rattle.list_labels.specs.Collecting.{Flagged};
ghost use Rattle.listing.specs.Parts.{Decodes, records_of, Lined, flagged_text, options_of};
ghost use Rattle.listing.specs.Listers.{context_by, decoded_by};

use crate::lister::Lister;
use answers::refusal::Refusal;
use numbers::print_words::put_decimal;
use numbers::words::put_word;
use slices::block::make_room;
use slices::widen::byte_index;
use slices::write::{put_byte, put_bytes};

// Lines are gathered in a block, so that they are written by words.
const BLOCK: usize = 6144;

// Where a block may be and still have room for a line: the label's, an instruction of the most bytes, and LF.
const LINE_START: usize = 2000;

fn put_label(out: &mut [u8], k: usize, indent: &[u8], at: usize) -> usize
    requires { at ≤ body_limit }
    ensures { ByWords out.old k (label_line indent.now at) out.new result }
{
    let a = put_bytes(out, k, indent);
    let b = put_word(out, a, 1, 76);
    let c = put_decimal(out, b, at as u64);
    put_word(out, c, 2, 0x0a3a)
}

// The label's line, where labels are shown and its flag is set.
fn put_flagged_label(
    out: &mut [u8],
    k: usize,
    labels: bool,
    flags: &[bool],
    indent: &[u8],
    at: usize,
) -> usize
    requires { (at < length flags.now) × (at ≤ body_limit) }
    ensures { ByWords out.old k (flagged_text labels flags.now indent.now at) out.new result }
{
    if labels && flags[at] {
        return put_label(out, k, indent, at);
    }
    k
}

// Writes all lines, and answers the position behind them; 3 of a line. A line's length is known from the two positions around it.
pub(crate) fn list_lines(
    lister: &Lister<'_>,
    s: &[u8],
    flags: &[bool],
    indent: &[u8],
    out: &mut [u8],
    from: usize,
) -> Result<usize, Refusal>
    requires decodes { Decodes lister.now.tables.types.now lister.now.last s.now }
    requires flagged { Flagged (label_offsets (context_by lister.now) (records_of (decoded_by lister.now s.now))) flags.now }
    requires s_in_bounds { (length s.now ≤ length flags.now) × (length s.now ≤ body_limit) × (length indent.now ≤ 2) }
    ensures { Lined
        (listed_text (options_of lister.now.options) (context_by lister.now) (label_offsets (context_by lister.now) (records_of (decoded_by lister.now s.now))) indent.now (records_of (decoded_by lister.now s.now)))
        (long_line (options_of lister.now.options) (context_by lister.now) indent.now (records_of (decoded_by lister.now s.now)))
        out.old «from» out.new result }
{
    let mut block = [0u8; BLOCK];
    let mut n: usize = 0;
    let mut k = from;
    let mut at: usize = 0;
    while at < s.len() {
        let gathered = make_room(out, k, &block, n, LINE_START);
        k = gathered.next;
        n = gathered.kept;
        let op = s[at] as usize;
        let size = byte_index(lister.rows[op].size);
        let a = put_flagged_label(&mut block, n, lister.options.show_labels, flags, indent, at);
        let b = put_bytes(&mut block, a, indent);
        let c = crate::instruction::put_instruction(lister, &mut block, b, s, at);
        if limits::LINE_LIMIT < c - a {
            return Err(Refusal::LongLine(at));
        }
        n = put_byte(&mut block, c, 10);
        at += size;
    }
    Ok(put_bytes(out, k, &block[0..n]))
}
