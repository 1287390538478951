// The desk's functions for the host: each is the proved operation with its answer as four numbers. They take plain numbers, flags and
// slices, as the crate desk_host_c passes them on from C.
#![tactic(auto)]

ghost use Rattle.std.specs.Prelude.{◌≡◌, [], ◌∷◌, length};
ghost use Rattle.spec_body.specs.Operation as operation;
ghost use Rattle.answers.specs.Numbers.{report_in};
ghost use Rattle.answers.specs.Outcome.{Ended};
ghost use Rattle.answers.specs.Report.{cleared};
ghost use Rattle.spec_listing.specs.Operation as listing;
ghost use Rattle.listing.specs.Parts.{options_from};
ghost use Rattle.listing.specs.Functions.{area_of};
ghost use Rattle.spec_hasm.specs.Operation as hasm;
ghost use Rattle.spec_carry.specs.Carry as carry;

use answers::report::Numbers;
use carry::edition::Edition;
use hasm_labels::label_entry::Slot;
use listing::options::Options;
use operation::area::Area;
use strings::table::StringTable;

// What a listing shows.
fn shown(offsets: bool, labels: bool, texts: bool) -> Options
    ensures { result ≡ record { show_offsets = offsets; show_labels = labels; resolve_strings = texts } }
{
    Options {
        show_offsets: offsets,
        show_labels: labels,
        resolve_strings: texts,
    }
}

// Decodes a body under a sheet into records of 20 words.
#[tactic(auto, using(answers::proofs::OutcomeLaws::ended_numbers))]
pub fn desk_decode(sheet: &[u8], body: &[u8], out: &mut [u64]) -> Numbers
    ensures { Ended (operation.decode sheet.now body.now) out.old [] out.new (report_in result) }
{
    Numbers::from(decode::instructions::decode(sheet, body, out))
}

// Decodes one function of an area.
#[tactic(auto, using(answers::proofs::OutcomeLaws::ended_numbers))]
pub fn desk_decode_function(
    sheet: &[u8],
    functions: &[u32],
    area: &[u8],
    base: u32,
    id: usize,
    out: &mut [u64],
) -> Numbers
    ensures { Ended (operation.decode_function sheet.now functions.now area.now base id) out.old [] out.new (report_in result) }
{
    let area = Area {
        functions,
        bytes: area,
        base,
    };
    Numbers::from(decode::instructions::decode_function(sheet, area, id, out))
}

// Encodes records of 20 words under a sheet into a body.
#[tactic(auto, using(answers::proofs::OutcomeLaws::ended_numbers))]
pub fn desk_encode(sheet: &[u8], words: &[u64], out: &mut [u8]) -> Numbers
    ensures { Ended (operation.encode sheet.now words.now) out.old [] out.new (report_in result) }
{
    Numbers::from(encode::encode::encode(sheet, words, out))
}

// Lists a body under a sheet and a string table, with offsets, labels and texts shown or not.
#[tactic(auto, using(answers::proofs::OutcomeLaws::ended_numbers))]
pub fn desk_list(
    sheet: &[u8],
    bytes: &[u8],
    ends: &[u32],
    body: &[u8],
    offsets: bool,
    labels: bool,
    texts: bool,
    out: &mut [u8],
    entries: &mut [u32],
) -> Numbers
    ensures ended { Ended (listing.list (options_from offsets labels texts) sheet.now bytes.now ends.now body.now) out.old (length entries.old ∷ []) out.new (report_in result) }
    ensures entries_after { entries.new ≡ cleared 0 entries.old }
{
    let options = shown(offsets, labels, texts);
    let strings = StringTable { bytes, ends };
    Numbers::from(listing::list::list(options, sheet, strings, body, out, entries))
}

// Lists one function of an area; offsets count from `base`.
#[tactic(auto, using(answers::proofs::OutcomeLaws::ended_numbers))]
pub fn desk_list_function(
    sheet: &[u8],
    bytes: &[u8],
    ends: &[u32],
    functions: &[u32],
    area: &[u8],
    base: u32,
    id: usize,
    offsets: bool,
    labels: bool,
    texts: bool,
    out: &mut [u8],
    entries: &mut [u32],
) -> Numbers
    ensures ended { Ended (listing.list_function (options_from offsets labels texts) sheet.now bytes.now ends.now (area_of functions.now area.now base) id) out.old (length entries.old ∷ []) out.new (report_in result) }
    ensures entries_after { entries.new ≡ cleared 0 entries.old }
{
    let options = shown(offsets, labels, texts);
    let strings = StringTable { bytes, ends };
    let area = Area {
        functions,
        bytes: area,
        base,
    };
    Numbers::from(listing::list_function::list_function(
        options, sheet, strings, area, id, out, entries,
    ))
}

// Lists all functions of an area, each under its banner.
#[tactic(auto, using(answers::proofs::OutcomeLaws::ended_numbers))]
pub fn desk_list_module(
    sheet: &[u8],
    bytes: &[u8],
    ends: &[u32],
    functions: &[u32],
    area: &[u8],
    base: u32,
    offsets: bool,
    labels: bool,
    texts: bool,
    out: &mut [u8],
    entries: &mut [u32],
) -> Numbers
    ensures ended { Ended (listing.list_module (options_from offsets labels texts) sheet.now bytes.now ends.now (area_of functions.now area.now base)) out.old (length entries.old ∷ []) out.new (report_in result) }
    ensures entries_after { entries.new ≡ cleared 0 entries.old }
{
    let options = shown(offsets, labels, texts);
    let strings = StringTable { bytes, ends };
    let area = Area {
        functions,
        bytes: area,
        base,
    };
    Numbers::from(list_module::module::list_module(options, sheet, strings, area, out, entries))
}

// Assembles a text under a sheet and a string table. A label entry is three words.
#[tactic(auto, using(answers::proofs::OutcomeLaws::ended_numbers))]
pub fn desk_assemble(
    sheet: &[u8],
    bytes: &[u8],
    ends: &[u32],
    text: &[u8],
    out: &mut [u8],
    labels: &mut [Slot],
) -> Numbers
    ensures ended { Ended (hasm.assemble sheet.now bytes.now ends.now text.now) out.old (length labels.old ∷ []) out.new (report_in result) }
    ensures labels_after { labels.new ≡ cleared (0 ∷ 0 ∷ 0 ∷ []) labels.old }
{
    let strings = StringTable { bytes, ends };
    Numbers::from(assemble::assemble::assemble(sheet, strings, text, out, labels))
}

// Carries a body from a sheet and string table to another.
#[tactic(auto, using(answers::proofs::OutcomeLaws::ended_numbers))]
pub fn desk_carry(
    sheet: &[u8],
    bytes: &[u8],
    ends: &[u32],
    sheet2: &[u8],
    bytes2: &[u8],
    ends2: &[u32],
    body: &[u8],
    out: &mut [u8],
    labels: &mut [Slot],
) -> Numbers
    ensures ended { Ended (carry.carry (record { sheet₁ = sheet.now; bytes₁ = bytes.now; ends₁ = ends.now; sheet₂ = sheet2.now; bytes₂ = bytes2.now; ends₂ = ends2.now; body = body.now })) out.old (length labels.old ∷ []) out.new (report_in result) }
    ensures labels_after { labels.new ≡ cleared (0 ∷ 0 ∷ 0 ∷ []) labels.old }
{
    let from = Edition {
        sheet,
        strings: StringTable { bytes, ends },
    };
    let into = Edition {
        sheet: sheet2,
        strings: StringTable {
            bytes: bytes2,
            ends: ends2,
        },
    };
    Numbers::from(carry::carry::carry(from, into, body, out, labels))
}
