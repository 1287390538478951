// An opcode sheet read into tables by opcode. The type codes are an array of 256 rows of eight; beside them each opcode
// has a row with its operand count, its jump mark, and the start and length of its name in the sheet's text. A length of
// 0 marks a gap, "<invalid>" in the Rust.
ghost use Rattle.std.specs.Prelude.{◌≡◌, ℕ, List, []};
ghost use Rattle.spec_sheet.specs.Line.{Op};
ghost use Rattle.spec_sheet.specs.Sheet.{ops_from, no_type_rows, no_info_rows, type_rows, info_rows, sheet_at, sheet_of};
ghost use Rattle.spec_sheet.specs.Sheet.OpsRead.{all_read};
ghost use Rattle.sheet.specs.Sheets.{ops_of, sheet_answer, types_in, infos_in};

use crate::rows::store_line;
use answers::refusal::Refusal;

// Opcode lines that were read: one more than the largest opcode, and the place behind them.
#[derive(Clone, Copy)]
pub struct Ops {
    pub above: usize,
    pub end: usize,
}

// Reads `count` opcode lines into empty tables; where one is malformed, how many were before it.
fn read_ops(
    s: &[u8],
    from: usize,
    count: usize,
    types: &mut [[u8; 8]; 256],
    ops: &mut [[usize; 4]; 256],
) -> Result<Ops, usize>
    requires { (types.old ≡ no_type_rows) × (ops.old ≡ no_info_rows) }
    ensures value { result ≡ ops_of (ops_from count s.now from 0 []) }
    ensures types_after { (os : List Op) (b : ℕ) → ops_from count s.now from 0 [] ≡ all_read os b → (types.new ≡ type_rows os) × (ops.new ≡ info_rows os) }
{
    let mut filter = [0u64; 256];
    let mut at = from;
    let mut least: usize = 0;
    for i in 0..count {
        let line = store_line(s, at, least, types, ops, &mut filter).ok_or(i)?;
        at = line.next;
        least = line.code + 1;
    }
    Ok(Ops {
        above: least,
        end: at,
    })
}

fn reset(types: &mut [[u8; 8]; 256], ops: &mut [[usize; 4]; 256])
    ensures types_after { types.new ≡ no_type_rows }
    ensures ops_after { ops.new ≡ no_info_rows }
{
    *types = [[0u8; 8]; 256];
    *ops = [[0usize; 4]; 256];
}

// A sheet that was read: its version, how many opcode lines it has, its largest opcode, and the place behind it.
#[derive(Clone, Copy)]
pub struct SheetRead {
    pub version: u64,
    pub count: usize,
    pub largest: usize,
    pub end: usize,
}

// The sheet that stands at `at`, read into empty tables. A malformed one leaves both zero.
fn sheet_into(
    s: &[u8],
    at: usize,
    types: &mut [[u8; 8]; 256],
    ops: &mut [[usize; 4]; 256],
) -> Result<SheetRead, Refusal>
    requires { (types.old ≡ no_type_rows) × (ops.old ≡ no_info_rows) }
    ensures value { result ≡ sheet_answer (sheet_at s.now at) }
    ensures types_after { types.new ≡ types_in (sheet_at s.now at) }
    ensures ops_after { ops.new ≡ infos_in (sheet_at s.now at) }
{
    let version = crate::scan::keyed_at(s, at, b"version=", 4294967295, b"\n").ok_or(
        Refusal::Malformed(1),
    )?;
    let count = crate::scan::keyed_at(s, version.next, b"count=", 256, b"\n").ok_or(
        Refusal::Malformed(2),
    )?;
    if count.value == 0 {
        return Err(Refusal::Malformed(2));
    }
    let lines = count.value as usize;
    match read_ops(s, count.next, lines, types, ops) {
        Ok(read) => Ok(SheetRead {
            version: version.value,
            count: lines,
            largest: read.above - 1,
            end: read.end,
        }),
        Err(k) => {
            reset(types, ops);
            Err(Refusal::Malformed(3 + k))
        }
    }
}

// The same, read into tables of any content.
pub fn sheet_at(
    s: &[u8],
    at: usize,
    types: &mut [[u8; 8]; 256],
    ops: &mut [[usize; 4]; 256],
) -> Result<SheetRead, Refusal>
    ensures value { result ≡ sheet_answer (sheet_at s.now at) }
    ensures types_after { types.new ≡ types_in (sheet_at s.now at) }
    ensures ops_after { ops.new ≡ infos_in (sheet_at s.now at) }
{
    reset(types, ops);
    sheet_into(s, at, types, ops)
}

// The sheet that is the whole text, read into empty tables, which an operation has just made.
pub fn read_sheet(
    s: &[u8],
    types: &mut [[u8; 8]; 256],
    ops: &mut [[usize; 4]; 256],
) -> Result<SheetRead, Refusal>
    requires { (types.old ≡ no_type_rows) × (ops.old ≡ no_info_rows) }
    ensures value { result ≡ sheet_answer (sheet_of s.now) }
    ensures types_after { types.new ≡ types_in (sheet_of s.now) }
    ensures ops_after { ops.new ≡ infos_in (sheet_of s.now) }
{
    let sheet = sheet_into(s, 0, types, ops)?;
    if sheet.end == s.len() {
        return Ok(sheet);
    }
    reset(types, ops);
    Err(Refusal::Malformed(3 + sheet.count))
}
