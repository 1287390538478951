// What a listing needs of each opcode, made once with the sheet: both walks over a body take an instruction's length from here,
// and the walk for labels looks at operands only where they are a jump's.
ghost use Rattle.std.specs.Prelude.{◌≡◌, eqb};
ghost use Rattle.lists.specs.Choice.{both};
ghost use Rattle.list_labels.specs.OpcodeRows.{has_addr, is_short, is_short_jump, is_other_jump, jump_of, jump_in, row_in, opcode_row, OpcodeRows};

use crate::target::is_addr;
use sheet::operand_types::ADDR8;
use sheet::rows::{JUMP_MARK, NAME_SIZE, NAME_START};
use sheet::tables::Tables;

// How an instruction's targets are found: there are none, since it is no jump or has no Addr; its only Addr is an Addr8 right behind
// the opcode, as it is of most jumps; any other jump.
#[derive(Clone, Copy)]
pub enum Jump {
    NoTarget,
    Short,
    Other,
}

impl Jump {
    pub(crate) fn is_short(self) -> bool
        ensures { result ≡ is_short_jump self }
    {
        matches!(self, Jump::Short)
    }

    pub(crate) fn is_other(self) -> bool
        ensures { result ≡ is_other_jump self }
    {
        matches!(self, Jump::Other)
    }
}

// The length of an instruction, whether it ends the flow, and how its targets are found.
#[derive(Clone, Copy)]
pub struct OpcodeRow {
    pub size: u8,
    pub ends_flow: bool,
    pub jump: Jump,
}

// The kind of jump that a byte stands for.
#[tactic(auto, using(std::proofs::lemmas::Bool::Decides::nat_tests))]
fn jump_in(kind: u8) -> Jump
    ensures { result ≡ jump_in kind }
{
    match kind {
        0 => Jump::NoTarget,
        1 => Jump::Short,
        _ => Jump::Other,
    }
}

// A row that three bytes hold: the length, 1 where it ends the flow, and the kind of jump: 0 for no target, 1 for a short jump, else
// any other.
impl From<[u8; 3]> for OpcodeRow {
    ghost from_gives = { λ x r. r ≡ row_in x };

    fn from(bytes: [u8; 3]) -> OpcodeRow {
        OpcodeRow {
            size: bytes[0],
            ends_flow: bytes[1] == 1,
            jump: jump_in(bytes[2]),
        }
    }
}

// Whether an operand of these types is an Addr.
fn has_addr(codes: &[u8]) -> bool
    ensures { result ≡ has_addr codes.now }
{
    codes.iter().any(|&code| is_addr(code))
}

// Whether an instruction with this jump mark and these types has targets.
fn is_jump(mark: usize, codes: [u8; 8]) -> bool
    ensures { result ≡ both (eqb mark 1) (has_addr codes) }
{
    mark == 1 && has_addr(&codes)
}

// Whether an Addr8 stands right behind the opcode and is the only Addr.
#[tactic(auto, unfolding(crate::specs::OpcodeRows::is_short))]
fn is_short(codes: [u8; 8]) -> bool
    ensures { result ≡ is_short codes }
{
    codes[0] == ADDR8 && !has_addr(&codes[1..])
}

// How the targets of an instruction with this jump mark and these types are found.
fn jump_of(mark: usize, codes: [u8; 8]) -> Jump
    ensures { result ≡ jump_of mark codes }
{
    if is_jump(mark, codes) {
        if is_short(codes) {
            return Jump::Short;
        }
        return Jump::Other;
    }
    Jump::NoTarget
}

// The row of an opcode, by its type codes and its name and jump mark.
fn opcode_row(text: &[u8], codes: [u8; 8], info: [usize; 4]) -> OpcodeRow
    ensures { result ≡ opcode_row text.now codes info }
{
    OpcodeRow {
        size: sheet::row::instruction_length(codes) as u8,
        ends_flow: crate::flow_end::ends_flow(text, info[NAME_START], info[NAME_SIZE]),
        jump: jump_of(info[JUMP_MARK], codes),
    }
}

// The rows of all opcodes up to the largest.
pub fn opcode_rows(tables: Tables<'_>, last: usize) -> [OpcodeRow; 256]
    ensures { OpcodeRows tables.entry.text.now tables.entry.types.now tables.entry.ops.now last result }
{
    let none = OpcodeRow {
        size: 0,
        ends_flow: false,
        jump: Jump::NoTarget,
    };
    let mut rows = [none; 256];
    for op in 0..256 {
        if last < op {
            return rows;
        }
        let row = opcode_row(tables.text, tables.types[op], tables.ops[op]);
        rows[op] = row;
    }
    rows
}
