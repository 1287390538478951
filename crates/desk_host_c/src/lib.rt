// The desk's functions for C, the symbols of include/desk.h. Each calls the library's function of its name and promises what
// that promises. A slice comes as a pointer and a length.
#![tactic(auto)]

ghost use Rattle.std.specs.Prelude.{◌≡◌, [], ◌∷◌, length};
ghost use Rattle.spec_body.specs.Operation as operation;
ghost use Rattle.answers.specs.Numbers.{report_in};
ghost use Rattle.answers.specs.Outcome.{Ended};
ghost use Rattle.answers.specs.Report.{cleared};
ghost use Rattle.spec_listing.specs.Operation as listing;
ghost use Rattle.listing.specs.Parts.{options_from};
ghost use Rattle.listing.specs.Functions.{area_of};
ghost use Rattle.spec_hasm.specs.Operation as hasm;
ghost use Rattle.spec_carry.specs.Carry as carry;

use answers::report::Numbers;
use hasm_labels::label_entry::Slot;

// Decodes a body under a sheet into records of 20 words.
#[unsafe(no_mangle)]
pub extern "C" fn desk_decode(sheet: &[u8], body: &[u8], out: &mut [u64]) -> Numbers
    ensures { Ended (operation.decode sheet.now body.now) out.old [] out.new (report_in result) }
{
    desk_host::desk_decode(sheet, body, out)
}

// Decodes one function of an area.
#[unsafe(no_mangle)]
pub extern "C" fn desk_decode_function(
    sheet: &[u8],
    functions: &[u32],
    area: &[u8],
    base: u32,
    id: usize,
    out: &mut [u64],
) -> Numbers
    ensures { Ended (operation.decode_function sheet.now functions.now area.now base id) out.old [] out.new (report_in result) }
{
    desk_host::desk_decode_function(sheet, functions, area, base, id, out)
}

// Encodes records of 20 words under a sheet into a body.
#[unsafe(no_mangle)]
pub extern "C" fn desk_encode(sheet: &[u8], words: &[u64], out: &mut [u8]) -> Numbers
    ensures { Ended (operation.encode sheet.now words.now) out.old [] out.new (report_in result) }
{
    desk_host::desk_encode(sheet, words, out)
}

// Lists a body under a sheet and a string table, with offsets, labels and texts shown or not.
#[unsafe(no_mangle)]
pub extern "C" fn desk_list(
    sheet: &[u8],
    bytes: &[u8],
    ends: &[u32],
    body: &[u8],
    offsets: bool,
    labels: bool,
    texts: bool,
    out: &mut [u8],
    entries: &mut [u32],
) -> Numbers
    ensures ended { Ended (listing.list (options_from offsets labels texts) sheet.now bytes.now ends.now body.now) out.old (length entries.old ∷ []) out.new (report_in result) }
    ensures entries_after { entries.new ≡ cleared 0 entries.old }
{
    desk_host::desk_list(
        sheet, bytes, ends, body, offsets, labels, texts, out, entries,
    )
}

// Lists one function of an area; offsets count from `base`.
#[unsafe(no_mangle)]
pub extern "C" fn desk_list_function(
    sheet: &[u8],
    bytes: &[u8],
    ends: &[u32],
    functions: &[u32],
    area: &[u8],
    base: u32,
    id: usize,
    offsets: bool,
    labels: bool,
    texts: bool,
    out: &mut [u8],
    entries: &mut [u32],
) -> Numbers
    ensures ended { Ended (listing.list_function (options_from offsets labels texts) sheet.now bytes.now ends.now (area_of functions.now area.now base) id) out.old (length entries.old ∷ []) out.new (report_in result) }
    ensures entries_after { entries.new ≡ cleared 0 entries.old }
{
    desk_host::desk_list_function(
        sheet, bytes, ends, functions, area, base, id, offsets, labels, texts, out, entries,
    )
}

// Lists all functions of an area, each under its banner.
#[unsafe(no_mangle)]
pub extern "C" fn desk_list_module(
    sheet: &[u8],
    bytes: &[u8],
    ends: &[u32],
    functions: &[u32],
    area: &[u8],
    base: u32,
    offsets: bool,
    labels: bool,
    texts: bool,
    out: &mut [u8],
    entries: &mut [u32],
) -> Numbers
    ensures ended { Ended (listing.list_module (options_from offsets labels texts) sheet.now bytes.now ends.now (area_of functions.now area.now base)) out.old (length entries.old ∷ []) out.new (report_in result) }
    ensures entries_after { entries.new ≡ cleared 0 entries.old }
{
    desk_host::desk_list_module(
        sheet, bytes, ends, functions, area, base, offsets, labels, texts, out, entries,
    )
}

// Assembles a text under a sheet and a string table. A label entry is three words.
#[unsafe(no_mangle)]
pub extern "C" fn desk_assemble(
    sheet: &[u8],
    bytes: &[u8],
    ends: &[u32],
    text: &[u8],
    out: &mut [u8],
    labels: &mut [Slot],
) -> Numbers
    ensures ended { Ended (hasm.assemble sheet.now bytes.now ends.now text.now) out.old (length labels.old ∷ []) out.new (report_in result) }
    ensures labels_after { labels.new ≡ cleared (0 ∷ 0 ∷ 0 ∷ []) labels.old }
{
    desk_host::desk_assemble(sheet, bytes, ends, text, out, labels)
}

// Carries a body from a sheet and string table to another.
#[unsafe(no_mangle)]
pub extern "C" fn desk_carry(
    sheet: &[u8],
    bytes: &[u8],
    ends: &[u32],
    sheet2: &[u8],
    bytes2: &[u8],
    ends2: &[u32],
    body: &[u8],
    out: &mut [u8],
    labels: &mut [Slot],
) -> Numbers
    ensures ended { Ended (carry.carry (record { sheet₁ = sheet.now; bytes₁ = bytes.now; ends₁ = ends.now; sheet₂ = sheet2.now; bytes₂ = bytes2.now; ends₂ = ends2.now; body = body.now })) out.old (length labels.old ∷ []) out.new (report_in result) }
    ensures labels_after { labels.new ≡ cleared (0 ∷ 0 ∷ 0 ∷ []) labels.old }
{
    desk_host::desk_carry(sheet, bytes, ends, sheet2, bytes2, ends2, body, out, labels)
}
