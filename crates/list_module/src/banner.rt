// The line in front of a function in a module's listing.
ghost use Rattle.lists.specs.Write.{Put};
ghost use Rattle.spec_listing.specs.Module.{banner};
ghost use Rattle.list_module.specs.Titles.{name_text, name_by_id};

use numbers::print_decimal::put_decimal;
use slices::write::put_bytes;
use strings::table::StringTable;

// Writes a name, quoted and in parentheses; nothing for an empty one.
fn put_name(out: &mut [u8], k: usize, name: &[u8]) -> usize
    ensures { Put out.old k (name_text name.now) out.new result }
{
    if name.is_empty() {
        return k;
    }
    let a = put_bytes(out, k, b" (");
    let b = strings::escapes::put_quoted(out, a, name);
    put_bytes(out, b, b")")
}

fn put_banner(out: &mut [u8], k: usize, id: usize, name: &[u8]) -> usize
    ensures { Put out.old k (banner id name.now) out.new result }
{
    let a = put_bytes(out, k, b"function ");
    let b = put_decimal(out, a, id as u64);
    let c = put_name(out, b, name);
    put_bytes(out, c, b":")
}

// The banner of a function whose name has an id in the string table.
pub(crate) fn put_title(
    out: &mut [u8],
    k: usize,
    id: usize,
    strings: StringTable<'_>,
    name: usize,
) -> usize
    ensures { Put out.old k (banner id (name_by_id strings.entry.bytes.now strings.entry.ends.now name)) out.new result }
{
    let Some(entry) = strings.string_at(name) else {
        return put_banner(out, k, id, b"");
    };
    put_banner(out, k, id, strings.part(entry.start, entry.end))
}
