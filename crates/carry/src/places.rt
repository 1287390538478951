// Where each instruction goes: a map by byte position, with 1 more than the new place where an instruction starts or the body ends,
// and 0 elsewhere. 13 and 14 are met on the way.
ghost use Rattle.std.specs.Prelude.{◌≡◌, ◌<◌, ◌≤◌, length, replicate};
ghost use Rattle.limits.specs.Limits.{body_limit};
ghost use Rattle.spec_inputs.specs.Context.{Context};
ghost use Rattle.spec_body.specs.Decode.{decode_body};
ghost use Rattle.carry.specs.Opcodes.{OpcodeRows, RowsKnown};
ghost use Rattle.carry.specs.Places.{PlacesMarked};

use crate::opcodes::OpcodeRow;
use answers::refusal::Refusal;

// Marks the places of a body in a map of zeros: how many instructions it has; or 13 or 14.
pub(crate) fn mark_places(
    rows: &[OpcodeRow; 256],
    last: usize,
    s: &[u8],
    map: &mut [u32],
) -> Result<usize, Refusal>
    requires { RowsKnown last rows.now × (length s.now ≤ body_limit) × (length s.now < length map.old) × (map.old ≡ replicate (length map.old) 0) }
    ensures { (a b : Context) → OpcodeRows a b last rows.now → PlacesMarked a b (decode_body a.types last s.now) (length s.now) map.new result }
{
    let mut new: usize = 0;
    let mut n: usize = 0;
    let mut at: usize = 0;
    while at < s.len() {
        let op = s[at] as usize;
        if last < op {
            return Err(Refusal::Beyond(at));
        }
        let row = rows[op];
        if s.len() - at < row.length {
            return Err(Refusal::Cut(at));
        }
        map[at] = new as u32 + 1;
        new += row.new_length;
        at += row.length;
        n += 1;
    }
    map[at] = new as u32 + 1;
    Ok(n)
}
