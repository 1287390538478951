// Assembling a recorded text: its input holds the string table and how many label entries are lent, too.
ghost use Rattle.std.specs.Prelude.{◌≡◌, [], ◌∷◌, ◌+◌, ◌*◌, ◌≤◌, length};
ghost use Rattle.lists.specs.Scan.{part};
ghost use Rattle.spec_numbers.specs.LittleEndian.{le};
ghost use Rattle.spec_hasm.specs.Operation as hasm;
ghost use Rattle.replay.specs.Words.{numbers_over};
ghost use Rattle.replay.specs.Lent.{are_clear};
ghost use Rattle.replay.specs.Performs.{done, ended, assembled_from, assembled};

use crate::Stop;
use answers::report::Numbers;
use numbers::little_endian::read_le;
use slices::part::part_of;

// What a word of a label entry holds before a call.
const WORD: u32 = 0xA5A5A5A5;

// Sets the ends to those whose little-endian bytes s holds, as far as both go.
fn ends_of(s: &[u8], ends: &mut [u32])
    ensures { ends.new ≡ numbers_over 4 s.now ends.old }
{
    let n = ends.len().min(s.len() / 4);
    for i in 0..n {
        ends[i] = (read_le(s, 4 * i, 4) % 0x1_0000_0000) as u32;
    }
}

// Whether every label entry is zero.
fn are_clear(labels: &[[u32; 3]]) -> bool
    ensures { result ≡ are_clear labels.now }
{
    labels
        .iter()
        .all(|slot| slot[0] == 0 && slot[1] == 0 && slot[2] == 0)
}

// Assembles a text, and looks at the label entries afterwards.
fn assemble_text(
    sheet: &[u8],
    bytes: &[u8],
    ends: &[u32],
    text: &[u8],
    out: &mut [u8],
    labels: &mut [[u32; 3]],
) -> Result<Numbers, Stop>
    ensures { done result out.new ≡ ended (hasm.assemble sheet.now bytes.now ends.now text.now) (length labels.old ∷ []) out.old }
{
    let a = desk_host::desk_assemble(sheet, bytes, ends, text, out, labels);
    if are_clear(labels) {
        return Ok(a);
    }
    Err(Stop::Differs)
}

// Takes the parts behind the input's three numbers: the ends, up to `from`, the `size` bytes of the strings, the text.
fn assemble_parts(
    sheet: &[u8],
    rest: &[u8],
    from: usize,
    size: usize,
    ends: &mut [u32],
    out: &mut [u8],
    labels: &mut [[u32; 3]],
) -> Result<Numbers, Stop>
    requires { («from» ≡ 4 * length ends.old) × («from» ≤ 256) × (size ≤ 4294967295) }
    ensures { done result out.new ≡ assembled_from sheet.now rest.now (length ends.old) size (length labels.old) out.old }
{
    let behind = from + size;
    if rest.len() < behind {
        return Err(Stop::Broken);
    }
    ends_of(rest, ends);
    assemble_text(
        sheet,
        part_of(rest, from, size),
        ends,
        &rest[behind..],
        out,
        labels,
    )
}

// A number in front of the input.
fn size_at(input: &[u8], at: usize) -> usize
    requires { at + 4 ≤ length input.now }
    ensures { (result ≡ le (part input.now at 4)) × (result ≤ 4294967295) }
{
    (read_le(input, at, 4) % 0x1_0000_0000) as usize
}

// Takes the input's numbers; `ends` and `labels` are space for the string table's ends and for the label entries.
fn assemble_within(
    sheet: &[u8],
    input: &[u8],
    ends: &mut [u32],
    out: &mut [u8],
    labels: &mut [[u32; 3]],
) -> Result<Numbers, Stop>
    requires { (length ends.old ≡ 64) × (length labels.old ≡ 64) }
    ensures { done result out.new ≡ assembled sheet.now input.now out.old }
{
    if input.len() < 12 {
        return Err(Stop::Broken);
    }
    let strings = size_at(input, 0);
    let size = size_at(input, 4);
    let lent = size_at(input, 8);
    if 64 < strings {
        return Err(Stop::Broken);
    }
    if ends.len() < strings {
        return Err(Stop::Broken);
    }
    if labels.len() < lent {
        return Err(Stop::Broken);
    }
    assemble_parts(
        sheet,
        &input[12..],
        4 * strings,
        size,
        &mut ends[0..strings],
        out,
        &mut labels[0..lent],
    )
}

// Assembles the text behind the string table.
pub fn assemble(sheet: &[u8], input: &[u8], out: &mut [u8]) -> Result<Numbers, Stop>
    ensures { done result out.new ≡ assembled sheet.now input.now out.old }
{
    let mut ends = [0u32; 64];
    let mut labels = [[WORD; 3]; 64];
    assemble_within(sheet, input, &mut ends, out, &mut labels)
}
