// Offsets noted as they are met: near ones in flags, one for each offset, and far ones, those past the flags, in a list.
ghost use Rattle.std.specs.Prelude.{◌≡◌, true, not, [], ◌∷◌, ◌+◌, ◌≤◌, ◌<◌, length, get_or};
ghost use Rattle.limits.specs.Limits.{body_limit};
ghost use Rattle.lists.specs.Choice.{pick, both};
ghost use Rattle.lists.specs.Scan.{part};
ghost use Rattle.spec_numbers.specs.LittleEndian.{le};
ghost use Rattle.spec_sheet.specs.Types.{width_of, addr8};
ghost use Rattle.spec_sheet.specs.Row.{length_of};
ghost use Rattle.spec_body.specs.Record.{pairs};
ghost use Rattle.spec_listing.specs.Operand.{target_of};
ghost use Rattle.spec_listing.specs.Labels.{targets};
ghost use Rattle.list_labels.specs.Notes.{notes_of, note_all};
ghost use Rattle.list_labels.specs.OpcodeRows.{RowFits};
ghost use Rattle.list_labels.specs.InstructionNotes.{target_in, labels_in};

use crate::offset_set::Counts;
use crate::opcode_rows::OpcodeRow;
use crate::target::{is_addr, target_of};
use sheet::operand_types::ADDR8;
use slices::widen::wide_byte;

// Notes the target of an operand at p of the jump at `at`, where it is an Addr's and not negative.
fn note_target(
    flags: &mut [bool],
    stored: &mut [u32],
    counts: Counts,
    s: &[u8],
    at: usize,
    code: u8,
    p: usize,
) -> Counts
    requires { (at ≤ body_limit) × (p + width_of code ≤ length s.now) × (counts.near + counts.far < 18446744073709551615) }
    ensures { notes_of flags.new stored.new result ≡ note_all (notes_of flags.old stored.old counts) (target_in at code (le (part s.now p (width_of code)))) }
{
    if is_addr(code) {
        let o = operand::read::read_operand(code, s, p);
        let value = o.value;
        let bits = operand::value::bits_of(value, o.bits);
        let target = target_of(at, code, bits);
        if target < 0x8000_0000 {
            return counts.note(flags, stored, target);
        }
        return counts;
    }
    counts
}

// Notes the targets of the jump at `at`.
fn note_targets(
    flags: &mut [bool],
    stored: &mut [u32],
    counts: Counts,
    row: [u8; 8],
    s: &[u8],
    at: usize,
) -> Counts
    requires { (at + length_of row ≤ length s.now) × (length s.now ≤ body_limit) × (counts.near + counts.far ≤ at + 1) }
    ensures result_after { notes_of flags.new stored.new result ≡ note_all (notes_of flags.old stored.old counts) (targets at row (pairs row s.now (at + 1))) }
    ensures far_bound { result.near + result.far ≤ at + length_of row }
{
    let mut c = counts;
    let mut p = at + 1;
    for code in row {
        c = note_target(flags, stored, c, s, at, code, p);
        p += sheet::operand_types::width(code);
    }
    c
}

// Whether an offset with this flag is to be flagged now.
fn is_new(marked: bool, flag: bool) -> bool
    ensures { result ≡ both marked (not flag) }
{
    marked && !flag
}

// Notes an offset where it is marked. A near one is flagged by the same steps whatever the mark is, since which instructions end the
// flow or jump cannot be foreseen, and a branch costs more.
fn note_where(
    marked: bool,
    flags: &mut [bool],
    stored: &mut [u32],
    counts: Counts,
    x: u32,
) -> Counts
    requires { counts.near + counts.far < 18446744073709551615 }
    ensures { notes_of flags.new stored.new result ≡ note_all (notes_of flags.old stored.old counts) (pick marked (x ∷ []) []) }
{
    let at = x as usize;
    if at < flags.len() {
        let flag = flags[at];
        let new = is_new(marked, flag);
        flags[at] = marked | flag;
        return Counts {
            near: counts.near + usize::from(new),
            ..counts
        };
    }
    if marked {
        return counts.note(flags, stored, x);
    }
    counts
}

// The target of the Addr8 behind the opcode of the short jump at `at`; what is no jump gives the offset behind it.
fn short_target(short: bool, s: &[u8], at: usize, next: u32) -> u32
    requires { (at < length s.now) × (short ≡ true → at + 1 < length s.now) × (at ≤ body_limit) }
    ensures { result ≡ pick short (target_of at addr8 (get_or s.now (at + 1) 0)) next }
{
    let distance = s[at + usize::from(short)];
    let target = target_of(at, ADDR8, wide_byte(distance));
    if short { target } else { next }
}

// Notes the target of a short jump, where it is not negative; nothing of what is no jump.
fn note_short(
    short: bool,
    flags: &mut [bool],
    stored: &mut [u32],
    counts: Counts,
    s: &[u8],
    at: usize,
    next: u32,
) -> Counts
    requires { (at < length s.now) × (short ≡ true → at + 1 < length s.now) × (at ≤ body_limit) × (counts.near + counts.far < 18446744073709551615) }
    ensures { notes_of flags.new stored.new result ≡ note_all (notes_of flags.old stored.old counts) (pick short (target_in at addr8 (get_or s.now (at + 1) 0)) []) }
{
    let x = short_target(short, s, at, next);
    if x < 0x8000_0000 {
        return note_where(short, flags, stored, counts, x);
    }
    counts
}

// Notes the label offsets that the instruction at `at` contributes, by its opcode's row and type codes.
pub(crate) fn note_instruction(
    row: OpcodeRow,
    codes: [u8; 8],
    s: &[u8],
    at: usize,
    size: usize,
    flags: &mut [bool],
    stored: &mut [u32],
    counts: Counts,
) -> Counts
    requires { (size ≡ length_of codes) × (at + size ≤ length s.now) × (length s.now ≤ body_limit) × (counts.near + counts.far ≤ at) × RowFits codes row }
    ensures result_after { notes_of flags.new stored.new result ≡ note_all (notes_of flags.old stored.old counts) (labels_in row codes s.now at) }
    ensures far_bound { result.near + result.far ≤ at + size }
{
    let next = (at + size) as u32;
    let c = note_where(row.ends_flow, flags, stored, counts, next);
    let jump = row.jump;
    if jump.is_other() {
        return note_targets(flags, stored, c, codes, s, at);
    }
    note_short(jump.is_short(), flags, stored, c, s, at, next)
}
