// One instruction as it is listed: format_instruction of disasm.rs.
ghost use Rattle.std.specs.Prelude.{◌+◌, ◌≤◌, eqb, length};
ghost use Rattle.limits.specs.Limits.{body_limit};
ghost use Rattle.lists.specs.Choice.{pick};
ghost use Rattle.lists.specs.Scan.{part};
ghost use Rattle.lists.specs.Text.{text};
ghost use Rattle.lists.specs.Write.{ByWords};
ghost use Rattle.spec_sheet.specs.Row.{length_of};
ghost use Rattle.spec_body.specs.Record.{record_of};
ghost use Rattle.spec_body.specs.Decode.{row_at};
ghost use Rattle.spec_listing.specs.Line.{offset_text, instruction_text};
ghost use Rattle.listing.specs.Listers.{context_by};

use crate::lister::Lister;
use crate::operand_text::put_operands;
use sheet::rows::{NAME_SIZE, NAME_START};
use slices::write::put_bytes;

// Writes an offset and two spaces, where offsets are shown.
fn put_offset(out: &mut [u8], k: usize, offsets: bool, at: usize) -> usize
    ensures { ByWords out.old k (offset_text offsets at) out.new result }
{
    if offsets {
        return numbers::print_words::put_offset(out, k, at as u64);
    }
    k
}

// Writes a name, which is a part of the sheet's text. A gap has none, which its length 0 says.
fn put_name(out: &mut [u8], k: usize, names: &[u8], start: usize, size: usize) -> usize
    ensures { ByWords out.old k (pick (eqb size 0) (text "<invalid>") (part names.now start size)) out.new result }
{
    if size == 0 {
        return put_bytes(out, k, b"<invalid>");
    }
    numbers::words::put_part(out, k, names, start, size)
}

// Writes the instruction at `at` of the body s.
pub(crate) fn put_instruction(
    lister: &Lister<'_>,
    out: &mut [u8],
    k: usize,
    s: &[u8],
    at: usize,
) -> usize
    requires { (at + length_of (row_at lister.now.tables.types.now s.now at) ≤ length s.now) × (length s.now ≤ body_limit) }
    ensures { ByWords out.old k (instruction_text lister.now.options.show_offsets lister.now.options.resolve_strings (context_by lister.now) (record_of (row_at lister.now.tables.types.now s.now at) s.now at)) out.new result }
{
    let op = s[at] as usize;
    let info = lister.tables.ops[op];
    let row = lister.tables.types[op];
    let a = put_offset(out, k, lister.options.show_offsets, at);
    let b = put_name(
        out,
        a,
        lister.tables.text,
        info[NAME_START],
        info[NAME_SIZE],
    );
    put_operands(lister, out, b, row, s, at)
}
