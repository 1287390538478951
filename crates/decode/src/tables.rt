// Tables that are made once for a body, so that its instructions are decoded with no test of their type codes: a plan for each opcode.
ghost use Rattle.std.specs.Prelude.{◌≡◌};
ghost use Rattle.decode.specs.Tables.{code_row, CodeRows, PlanOf, PlanRows};

use crate::pair::put_pair;

// A type code's width and kind.
fn code_row(code: u8) -> [u8; 2]
    ensures { result ≡ code_row code }
{
    let width = sheet::operand_types::width(code) as u8;
    let kind = sheet::operand_types::kind(code);
    [width, kind]
}

// Those of each code; behind the twelve types both are 0.
fn code_rows() -> [[u8; 2]; 256]
    ensures { CodeRows result }
{
    let mut rows = [[0u8; 2]; 256];
    for c in 0..13 {
        rows[c] = code_row(c as u8);
    }
    rows
}

// An opcode's plan: by operand where it starts, counted from the opcode's place, and its kind; behind the eight operands the
// instruction's length, which is where the last operand ends, and the operand count.
pub(crate) type Plan = [u8; 18];

// Where the fifth operand starts, and the two numbers behind the operands.
pub(crate) const FIFTH_START: usize = 8;

pub(crate) const LENGTH: usize = 16;

pub(crate) const COUNT: usize = 17;

// The plan of a row of type codes.
fn plan_row(codes: &[[u8; 2]; 256], row: [u8; 8]) -> Plan
    requires { CodeRows codes.now }
    ensures { PlanOf row result }
{
    let mut plan = [0u8; 18];
    let mut start: u8 = 1;
    let mut count: u8 = 0;
    for (i, &c) in row.iter().enumerate() {
        let [width, kind] = codes[c as usize];
        put_pair(&mut plan, 2 * i, start, kind);
        start += width;
        count += sheet::row::one_for(c) as u8;
    }
    put_pair(&mut plan, LENGTH, start, count);
    plan
}

// The plan of each opcode up to the largest.
pub(crate) fn plan_rows(types: &[[u8; 8]; 256], last: usize) -> [Plan; 256]
    ensures { PlanRows types.now last result }
{
    let codes = code_rows();
    let mut rows = [[0u8; 18]; 256];
    for op in 0..last.min(255) + 1 {
        rows[op] = plan_row(&codes, types[op]);
    }
    rows
}
