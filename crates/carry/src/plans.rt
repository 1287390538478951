// What is to be done with each operand of each opcode, made once for a body, so that the loop over operands looks no family and no
// width up.
ghost use Rattle.std.specs.Prelude.{◌≡◌, ◌≤◌};
ghost use Rattle.carry.specs.Opcodes.{NewOpcodes};
ghost use Rattle.carry.specs.Plans.{action_of, keeps_type, keeps_all, copied, plan_of, RowPlanned, Plans};

use crate::opcodes::OpcodeRow;
use sheet::family::Family;

// What is to be done with an operand. In a byte, so that the table of all plans is small, which is cleared for each body.
#[derive(Clone, Copy)]
#[repr(u8)]
pub enum Action {
    Keeps, // its bytes stay
    Number, // a register or number of another width, which has to fit
    String, // the id of a string
    Addr,
    OtherFamily, // the second sheet has another family there, which refuses it
}

// What is to be done with an operand, and how many bytes it has under both sheets.
#[derive(Clone, Copy)]
pub struct Plan {
    pub action: Action,
    pub old_width: u8,
    pub new_width: u8,
}

// What is to be done with an operand of type c under the first sheet and d under the second.
fn action_of(c: u8, d: u8) -> Action
    ensures { result ≡ action_of c d }
{
    let family = sheet::operand_types::family(c);
    if family != sheet::operand_types::family(d) {
        return Action::OtherFamily;
    }
    match family {
        Family::Str => Action::String,
        Family::Addr => Action::Addr,
        Family::Reg | Family::UInt => {
            if c == d {
                Action::Keeps
            } else {
                Action::Number
            }
        }
        Family::NoOperand | Family::Imm32 | Family::Double => Action::Keeps,
    }
}

// Whether an operand has one type under both sheets and keeps its bytes.
fn keeps_type(c: u8, d: u8) -> bool
    ensures { result ≡ keeps_type c d }
{
    c == d && matches!(action_of(c, d), Action::Keeps)
}

fn keeps_all(row: [u8; 8], new: [u8; 8]) -> bool
    ensures { result ≡ keeps_all row new }
{
    row.iter().zip(new.iter()).all(|(&c, &d)| keeps_type(c, d))
}

// Whether an instruction of at most eight bytes keeps all of them but its opcode.
pub(crate) fn is_copied(row: [u8; 8], new: [u8; 8]) -> bool
    ensures { result ≡ copied row new }
{
    if 8 < sheet::row::instruction_length(row) {
        return false;
    }
    keeps_all(row, new)
}

// The plan of an operand, where there is one.
fn plan_of(c: u8, d: u8) -> Option<Plan>
    ensures { result ≡ plan_of c d }
{
    if c == 0 {
        return None;
    }
    Some(Plan {
        action: action_of(c, d),
        old_width: sheet::operand_types::width(c) as u8,
        new_width: sheet::operand_types::width(d) as u8,
    })
}

// The plans of an opcode's operands.
fn plan_row(row: [u8; 8], new: [u8; 8]) -> [Option<Plan>; 8]
    ensures { RowPlanned row new result }
{
    let mut plans = [None; 8];
    for j in 0..8 {
        plans[j] = plan_of(row[j], new[j]);
    }
    plans
}

// Sets those of all opcodes up to the largest. The table is lent: handed out, it would be cleared and copied a second time.
pub(crate) fn plan_table(
    types: &[[u8; 8]; 256],
    types2: &[[u8; 8]; 256],
    rows: &[OpcodeRow; 256],
    last: usize,
    plans: &mut [[Option<Plan>; 8]; 256],
)
    requires { NewOpcodes last rows.now }
    ensures { Plans types.now types2.now rows.now last plans.new }
{
    for op in 0..=last.min(255) {
        plans[op] = plan_row(types[op], types2[rows[op].opcode]);
    }
}
