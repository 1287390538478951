// What becomes of each opcode of the first sheet, made once for a body, so that its instructions need no search.
ghost use Rattle.std.specs.Prelude.{List, ℕ, ◌<◌, ◌≤◌, ◌≡◌, eqb};
ghost use Rattle.lists.specs.Choice.{pick};
ghost use Rattle.lists.specs.Text.{text};
ghost use Rattle.slices.specs.Answers.{found_of};
ghost use Rattle.spec_sheet.specs.Line.{name_size, name_in};
ghost use Rattle.spec_sheet.specs.Sheet.{find_name};
ghost use Rattle.spec_inputs.specs.Context.{context_from};
ghost use Rattle.carry.specs.Opcodes.{known_state, found_row, OpcodeRows, NewOpcodes, NewLengths};

use sheet::name_index::{NAME_INDEX, Names, index_names};
use sheet::rows::{NAME_SIZE, NAME_START};
use sheet::tables::Tables;
use slices::space::zeroed;

// What the second sheet has for an opcode.
#[derive(Clone, Copy, PartialEq, Eq)]
pub enum State {
    Missing, // not its name
    OtherCount, // its name with another number of operands
    Known, // its name
    Copied, // its name, and instructions keep their bytes but for the opcode
}

// What becomes of an opcode: its state, its opcode in the second sheet, and the instruction's length under both sheets.
#[derive(Clone, Copy)]
pub struct OpcodeRow {
    pub state: State,
    pub opcode: usize,
    pub length: usize,
    pub new_length: usize,
}

// That of an opcode past the largest, which no body has.
pub(crate) const EMPTY: OpcodeRow = OpcodeRow {
    state: State::Missing,
    opcode: 0,
    length: 0,
    new_length: 0,
};

// What becomes of each opcode, with its type codes under both sheets, and the largest.
#[derive(Clone, Copy)]
pub struct Opcodes<'a> {
    pub types: &'a [[u8; 8]; 256],
    pub types2: &'a [[u8; 8]; 256],
    pub rows: &'a [OpcodeRow; 256],
    pub last: usize,
}

// The second sheet's opcode of the name that `info` points to. A gap's name is "<invalid>", which no sheet has.
fn opcode_into(sheet: &[u8], info: [usize; 4], into: Names<'_>) -> Option<usize>
    ensures { result ≡ found_of (find_name into.entry.text.now (pick (eqb (name_size info) 0) (text "<invalid>") (name_in sheet.now info)) 0 into.entry.ops.now) }
{
    let size = info[NAME_SIZE];
    if size == 0 {
        return into.find(b"<invalid>");
    }
    into.find(slices::part::part_of(sheet, info[NAME_START], size))
}

// The state of an opcode that is found, by its types under both sheets.
fn state_of(row: [u8; 8], new: [u8; 8]) -> State
    ensures { result ≡ known_state row new }
{
    if sheet::row::operand_count(row) != sheet::row::operand_count(new) {
        return State::OtherCount;
    }
    if crate::plans::is_copied(row, new) {
        State::Copied
    } else {
        State::Known
    }
}

// The row of an opcode of the first sheet.
fn opcode_row(
    sheet: &[u8],
    info: [usize; 4],
    row: [u8; 8],
    types2: &[[u8; 8]; 256],
    into: Names<'_>,
) -> OpcodeRow
    ensures value { result ≡ found_row (find_name into.entry.text.now (pick (eqb (name_size info) 0) (text "<invalid>") (name_in sheet.now info)) 0 into.entry.ops.now) row types2.now }
    ensures result_bound { (result.opcode < 256) × (result.new_length ≤ 65) }
{
    let length = sheet::row::instruction_length(row);
    // An opcode that was found has a row. Lent as a slice, the array tells the proof that there are 256 rows.
    let ops = into.ops;
    let _rows: &[[usize; 4]] = ops;
    match opcode_into(sheet, info, into) {
        Some(opcode) => {
            let new = types2[opcode];
            OpcodeRow {
                state: state_of(row, new),
                opcode,
                length,
                new_length: sheet::row::instruction_length(new),
            }
        }
        None => OpcodeRow {
            state: State::Missing,
            opcode: 0,
            length,
            new_length: sheet::row::instruction_length(types2[0]),
        },
    }
}

// Sets the rows of all opcodes up to the largest. The table is lent: handed out, it would be cleared and copied a second time.
fn opcode_rows(
    from: Tables<'_>,
    last: usize,
    types2: &[[u8; 8]; 256],
    into: Names<'_>,
    rows: &mut [OpcodeRow; 256],
)
    ensures opcode_rows { (bytes₁ ends₁ bytes₂ ends₂ : List ℕ) → OpcodeRows (context_from «from».entry.text.now «from».entry.types.now «from».entry.ops.now bytes₁ ends₁) (context_from into.entry.text.now types2.now into.entry.ops.now bytes₂ ends₂) last rows.new }
    ensures new_opcodes { NewOpcodes last rows.new × NewLengths last rows.new }
{
    for op in 0..=last.min(255) {
        rows[op] = opcode_row(from.text, from.ops[op], from.types[op], types2, into);
    }
}

// The same, with an index of the second sheet's names.
pub(crate) fn rows_between(
    from: Tables<'_>,
    last: usize,
    into: Tables<'_>,
    rows: &mut [OpcodeRow; 256],
)
    ensures opcode_rows { (bytes₁ ends₁ bytes₂ ends₂ : List ℕ) → OpcodeRows (context_from «from».entry.text.now «from».entry.types.now «from».entry.ops.now bytes₁ ends₁) (context_from into.entry.text.now into.entry.types.now into.entry.ops.now bytes₂ ends₂) last rows.new }
    ensures new_opcodes { NewOpcodes last rows.new × NewLengths last rows.new }
{
    let mut index = zeroed::<u32, NAME_INDEX>(0);
    index_names(into.text, into.ops, &mut index);
    let names = Names {
        text: into.text,
        ops: into.ops,
        index: &index,
    };
    opcode_rows(from, last, into.types, names, rows)
}
