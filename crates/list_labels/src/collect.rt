// The label offsets of a body in one walk over it, and in further ones where some lie past the flags and that decides.
ghost use Rattle.std.specs.Prelude.{◌≡◌, ◌≤◌, false, length, replicate};
ghost use Rattle.limits.specs.Limits.{body_limit};
ghost use Rattle.spec_body.specs.Decode.{decode_body};
ghost use Rattle.list_labels.specs.Readable.{readable};
ghost use Rattle.list_labels.specs.OpcodeRows.{opcodes_of, row_labels};
ghost use Rattle.list_labels.specs.Collecting.{unnoted, walk_of, walked_count, Noted, FarCounted, CollectedFor, Flagged};

use crate::body::Body;
use crate::offset_set::Counts;
use answers::refusal::Refusal;
use slices::widen::byte_index;

// How many near offsets a walk flagged and how many far ones it met.
#[derive(Clone, Copy)]
struct Met {
    near: usize,
    far: usize,
}

// Walks over a body and notes the label offsets of each instruction; the far ones are those from `low` on and below `high`. 13 or 14
// of decoding.
fn walk(
    body: Body<'_>,
    low: usize,
    high: usize,
    flags: &mut [bool],
    stored: &mut [u32],
) -> Result<Met, Refusal>
    ensures value { (result ≡ walk_of (opcodes_of body.entry.types.now body.entry.rows.now) (unnoted flags.old stored.old low high) (decode_body body.entry.types.now body.entry.last body.entry.bytes.now)) × (walked_count result ≤ length body.entry.bytes.now) }
    ensures noted { Noted (opcodes_of body.entry.types.now body.entry.rows.now) (readable body.entry.types.now body.entry.last body.entry.bytes.now) (unnoted flags.old stored.old low high) flags.new stored.new }
{
    let s = body.bytes;
    let mut counts = Counts {
        near: 0,
        far: 0,
        low,
        high,
    };
    let mut at: usize = 0;
    while at < s.len() {
        let op = s[at] as usize;
        if body.last < op {
            return Err(Refusal::Beyond(at));
        }
        let row = body.rows[op];
        let size = byte_index(row.size);
        if s.len() - at < size {
            return Err(Refusal::Cut(at));
        }
        let codes = body.types[op];
        counts = crate::instruction_labels::note_instruction(
            row, codes, s, at, size, flags, stored, counts,
        );
        at += size;
    }
    Ok(Met {
        near: counts.near,
        far: counts.far,
    })
}

// The most offsets of a range that are counted at once.
const FAR_SPACE: usize = 1024;

// How many different offsets of a range a body has. A range with more offsets than are counted at once is halved and each half
// walked for again, so that the stack of a listing stays small.
fn count_far(body: Body<'_>, low: usize, high: usize) -> usize
    requires { (low ≤ high) × (high ≤ 2147483648) }
    ensures { (result ≤ body_limit) × FarCounted (opcodes_of body.entry.types.now body.entry.rows.now) (decode_body body.entry.types.now body.entry.last body.entry.bytes.now) low high result }
{
    let mut none: [bool; 0] = [];
    let mut stored = [0u32; FAR_SPACE];
    let Ok(met) = walk(body, low, high, &mut none, &mut stored) else {
        return 0;
    };
    let n = met.far;
    if n <= FAR_SPACE {
        let mut spare = [0u32; FAR_SPACE];
        return crate::distinct::count_different(&mut stored[0..n], &mut spare);
    }
    if high - low < 2 {
        return 1;
    }
    let mid = low + (high - low) / 2;
    let front = count_far(body, low, mid);
    front + count_far(body, mid, high)
}

// No target is past this.
const OFFSET_LIMIT: usize = 2147483648;

// Flags each label offset that lies below their number, and counts the different ones, which are the label entries that a body
// needs; 13 or 14 of decoding. There are no more different far offsets than far ones, so that those are counted only where fewer
// entries are lent. A body that is refused has flags for the instructions in front of the one that is at fault.
pub fn collect_label_offsets(
    body: Body<'_>,
    lent: usize,
    flags: &mut [bool],
) -> Result<usize, Refusal>
    requires { (length flags.old ≤ body_limit) × (flags.old ≡ replicate (length flags.old) false) }
    ensures collected_for { CollectedFor lent (opcodes_of body.entry.types.now body.entry.rows.now) (decode_body body.entry.types.now body.entry.last body.entry.bytes.now) result }
    ensures flagged { Flagged (row_labels (opcodes_of body.entry.types.now body.entry.rows.now) (readable body.entry.types.now body.entry.last body.entry.bytes.now)) flags.new }
{
    let room = flags.len();
    // Far offsets are only counted here, so what this holds is never looked at.
    let mut none = [0u32; 1];
    let met = walk(body, room, OFFSET_LIMIT, flags, &mut none)?;
    let near = met.near;
    let far = met.far;
    if near + far <= lent {
        return Ok(near + far);
    }
    if far == 0 {
        return Ok(near);
    }
    Ok(near + count_far(body, room, OFFSET_LIMIT))
}
