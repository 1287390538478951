// The rows of a sheet's tables: an opcode's name looked up, and an opcode line stored.
ghost use Rattle.std.specs.Prelude.{◌≡◌, ◌≤◌, ◌<◌, take, set, false};
ghost use Rattle.std.specs.List.{position};
ghost use Rattle.lists.specs.Choice.{pick};
ghost use Rattle.lists.specs.Found.Found.{missing};
ghost use Rattle.slices.specs.Answers.{found_of};
ghost use Rattle.spec_sheet.specs.Line.{line_at, name_in};
ghost use Rattle.spec_sheet.specs.Sheet.{has_name, find_name, is_missing, may_follow, accepted};
ghost use Rattle.sheet.specs.NameFilter.{Filtered};
ghost use Rattle.sheet.specs.Rows.{turn_of, types_stored, infos_stored};

// Where an opcode's row has its jump mark, and the start and length of its name. Its first number is the operand count. The row stays
// four numbers and no struct, since the definitions (info_row, no_info_rows) and the clauses of all crates have lists of numbers.
pub const JUMP_MARK: usize = 1;

pub const NAME_START: usize = 2;

pub const NAME_SIZE: usize = 3;

// Whether an opcode has this name.
pub fn has_name(s: &[u8], name: &[u8], row: [usize; 4]) -> bool
    ensures { result ≡ has_name s.now name.now row }
{
    let start = row[NAME_START];
    let size = row[NAME_SIZE];
    if size == 0 {
        return false;
    }
    let own = slices::part::part_of(s, start, size);
    slices::compare::same_bytes(own, name)
}

// The first of some rows that has a name.
fn named_row(s: &[u8], name: &[u8], rows: &[[usize; 4]]) -> Option<usize>
    ensures { result ≡ position (has_name s.now name.now) rows.now }
{
    rows.iter().position(|&row| has_name(s, name, row))
}

// The first opcode below `bound` that has a name.
pub fn find_name(s: &[u8], name: &[u8], ops: &[[usize; 4]; 256], bound: usize) -> Option<usize>
    requires { bound ≤ 256 }
    ensures { result ≡ found_of (find_name s.now name.now 0 (take bound ops.now)) }
{
    named_row(s, name, &ops[..bound])
}

// Stores the two rows of an opcode, where it may follow those below `least`. The tables are parameters, since document 01 has the type
// codes by value in no struct.
fn store_op(
    s: &[u8],
    least: usize,
    code: usize,
    row: [u8; 8],
    info: [usize; 4],
    types: &mut [[u8; 8]; 256],
    ops: &mut [[usize; 4]; 256],
    filter: &mut [u64; 256],
) -> bool
    requires { (least ≤ 256) × (code < 256) × Filtered s.now filter.old ops.old }
    ensures value { result ≡ may_follow s.now least ops.old code (name_in s.now info) }
    ensures types_after { types.new ≡ pick result (set types.old code row) types.old }
    ensures ops_after { ops.new ≡ pick result (set ops.old code info) ops.old }
    ensures filtered { Filtered s.now filter.new ops.new }
{
    if code < least {
        return false;
    }
    let name = slices::part::part_of(s, info[NAME_START], info[NAME_SIZE]);
    let h = crate::name_filter::name_hash(name);
    // Where its hash is not in the filter no opcode has the name; only where it is the opcodes are searched.
    if crate::name_filter::in_filter(filter, h) && find_name(s, name, ops, least).is_some() {
        return false;
    }
    types[code] = row;
    ops[code] = info;
    crate::name_filter::add_hash(filter, h);
    true
}

// An opcode line that was stored: its opcode and the place behind it.
#[derive(Clone, Copy)]
pub struct StoredLine {
    pub code: usize,
    pub next: usize,
}

// Reads one opcode line and stores its rows, where it may follow those below `least`.
pub fn store_line(
    s: &[u8],
    at: usize,
    least: usize,
    types: &mut [[u8; 8]; 256],
    ops: &mut [[usize; 4]; 256],
    filter: &mut [u64; 256],
) -> Option<StoredLine>
    requires { (least ≤ 256) × Filtered s.now filter.old ops.old }
    ensures value { result ≡ turn_of (accepted s.now least ops.old (line_at s.now at)) }
    ensures types_after { types.new ≡ types_stored (accepted s.now least ops.old (line_at s.now at)) types.old }
    ensures ops_after { ops.new ≡ infos_stored (accepted s.now least ops.old (line_at s.now at)) ops.old }
    ensures filtered { Filtered s.now filter.new ops.new }
{
    let line = crate::line::line_at(s, at)?;
    if store_op(s, least, line.code, line.row, line.info, types, ops, filter) {
        return Some(StoredLine {
            code: line.code,
            next: line.next,
        });
    }
    None
}
