// The listing of one body, before its length and the lent space are looked at.
ghost use Rattle.std.specs.Prelude.{◌≡◌, ◌≤◌, false, length, replicate, OnErr};
ghost use Rattle.limits.specs.Limits.{body_limit};
ghost use Rattle.spec_listing.specs.Listing.{list_decoded};
ghost use Rattle.lists.specs.Choice.{pick};
ghost use Rattle.answers.specs.Report.{zeros};
ghost use Rattle.listing.specs.Parts.{options_of};
ghost use Rattle.listing.specs.Listers.{context_by, decoded_by};
ghost use Rattle.listing.specs.Bodies.{Written};

use crate::lister::Lister;
use answers::refusal::Refusal;
use list_labels::body::Body;
use slices::clearing::clear;
use slices::space::zeroed;

// A part of a listing that was written: the next position, and the label entries needed, exactly where they are more than are lent.
#[derive(Clone, Copy)]
pub struct Part {
    pub next: usize,
    pub entries: usize,
}

// How many label entries are needed: none where labels are not shown.
fn entries_for(labels: bool, n: usize) -> usize
    ensures { result ≡ pick labels n 0 }
{
    if labels { n } else { 0 }
}

// How many entries are lent as far as counting goes. Where labels are not shown none is needed, and no body has more labels than this,
// so that those far outside are not told apart for nothing.
fn counted_lent(labels: bool, lent: usize) -> usize
    ensures { result ≡ pick labels lent body_limit }
{
    if labels { lent } else { limits::BODY_LIMIT }
}

// Where a part starts in the output, and how many label entries are lent.
#[derive(Clone, Copy)]
pub struct Room {
    pub from: usize,
    pub lent: usize,
}

// With flags that are lent and zero.
fn list_flagged(
    lister: &Lister<'_>,
    s: &[u8],
    indent: &[u8],
    room: Room,
    out: &mut [u8],
    flags: &mut [bool],
) -> Result<Part, Refusal>
    requires flags_value { flags.old ≡ replicate (length flags.old) false }
    requires s_in_bounds { (length s.now ≤ length flags.old) × (length flags.old ≤ body_limit) × (length indent.now ≤ 2) }
    ensures { Written room.lent (list_decoded (options_of lister.now.options) (context_by lister.now) indent.now (decoded_by lister.now s.now)) out.old room.«from» out.new result }
{
    let labels = lister.options.show_labels;
    let body = Body {
        types: lister.tables.types,
        rows: lister.rows,
        last: lister.last,
        bytes: s,
    };
    let lent = counted_lent(labels, room.lent);
    let n = list_labels::collect::collect_label_offsets(body, lent, flags)?;
    let next = crate::body_lines::list_lines(lister, s, flags, indent, out, room.from)?;
    Ok(Part {
        next,
        entries: entries_for(labels, n),
    })
}

// With space for N flags.
fn list_sized<const N: usize>(
    lister: &Lister<'_>,
    s: &[u8],
    indent: &[u8],
    room: Room,
    out: &mut [u8],
) -> Result<Part, Refusal>
    requires { (length s.now ≤ N) × (N ≤ body_limit) × (length indent.now ≤ 2) }
    ensures { Written room.lent (list_decoded (options_of lister.now.options) (context_by lister.now) indent.now (decoded_by lister.now s.now)) out.old room.«from» out.new result }
{
    let mut flags = zeroed::<bool, N>(false);
    clear(&mut flags, false);
    list_flagged(lister, s, indent, room, out, &mut flags)
}

// The most bytes of a body that takes small flags.
const SMALL_BODY: usize = 4096;

// Lists a body as `list_body` does, but what a refusal leaves is not cleared. With flags of a size that suffices: a small body takes
// small flags, which cost less to clear.
pub fn list_flags(
    lister: &Lister<'_>,
    s: &[u8],
    indent: &[u8],
    room: Room,
    out: &mut [u8],
) -> Result<Part, Refusal>
    requires { (length s.now ≤ body_limit) × (length indent.now ≤ 2) }
    ensures { Written room.lent (list_decoded (options_of lister.now.options) (context_by lister.now) indent.now (decoded_by lister.now s.now)) out.old room.«from» out.new result }
{
    if s.len() <= SMALL_BODY {
        return list_sized::<SMALL_BODY>(lister, s, indent, room, out);
    }
    list_sized::<{ limits::BODY_LIMIT }>(lister, s, indent, room, out)
}

// Lists a body at position `from`: 13, 14, 3. A refusal leaves the output all zero.
pub fn list_body(
    lister: &Lister<'_>,
    s: &[u8],
    indent: &[u8],
    room: Room,
    out: &mut [u8],
) -> Result<Part, Refusal>
    requires { (length s.now ≤ body_limit) × (length indent.now ≤ 2) }
    ensures written { Written room.lent (list_decoded (options_of lister.now.options) (context_by lister.now) indent.now (decoded_by lister.now s.now)) out.old room.«from» out.new result }
    ensures cleared { OnErr result (out.new ≡ zeros out.old) }
{
    let part = list_flags(lister, s, indent, room, out);
    if part.is_err() {
        clear(out, 0);
    }
    part
}
