// One function in a module's listing.
ghost use Rattle.std.specs.Prelude.{◌+◌, ◌≤◌, length};
ghost use Rattle.limits.specs.Limits.{body_limit, listing_limit};
ghost use Rattle.listing.specs.Parts.{options_of};
ghost use Rattle.listing.specs.Listers.{context_by};
ghost use Rattle.listing.specs.Bodies.{Written};
ghost use Rattle.operation.specs.Places.{located_of};
ghost use Rattle.list_module.specs.Modules.{titled, list_located};

use answers::refusal::Refusal;
use listing::body::{Part, Room};
use listing::lister::Lister;
use operation::area::Area;
use slices::write::put_byte;

// Lists the body s under its banner, with an empty line behind it: 3 of the banner, then 13, 14, 3. `from` is small, so that the
// banner's length is known from the two positions.
fn list_titled(
    lister: &Lister<'_>,
    s: &[u8],
    id: usize,
    name: usize,
    room: Room,
    out: &mut [u8],
) -> Result<Part, Refusal>
    requires { (length s.now ≤ body_limit) × (room.«from» ≤ listing_limit + 1) }
    ensures { Written room.lent (titled (options_of lister.now.options) (context_by lister.now) lister.now.last id name s.now) out.old room.«from» out.new result }
{
    let from = room.from;
    let lent = room.lent;
    let a = crate::banner::put_title(out, from, id, lister.strings, name);
    if limits::LINE_LIMIT < a - from {
        return Err(Refusal::LongLine(id));
    }
    let b = put_byte(out, a, 10);
    let part = listing::body::list_flags(lister, s, b"  ", Room { from: b, lent }, out)?;
    Ok(Part {
        next: put_byte(out, part.next, 10),
        ..part
    })
}

// Lists the function `id` of an area: 20, 18 of its body, then under its banner.
pub(crate) fn list_located(
    lister: &Lister<'_>,
    area: Area<'_>,
    id: usize,
    room: Room,
    out: &mut [u8],
) -> Result<Part, Refusal>
    requires { room.«from» ≤ listing_limit + 1 }
    ensures { Written room.lent (list_located (options_of lister.now.options) (context_by lister.now) lister.now.last area.entry.bytes.now id (located_of area.entry.functions.now area.entry.bytes.now area.entry.base id)) out.old room.«from» out.new result }
{
    let f = area.locate(id)?;
    let body = slices::part::part_of(area.bytes, f.start, f.size);
    list_titled(lister, body, id, f.name, room, out)
}
