// Both passes of document 01 in one loop over the instructions: a refusal of the first pass is answered where it is met, and the
// first 8, which belongs to the second, is kept until the first pass is over.
ghost use Rattle.std.specs.Prelude.{◌≡◌, ◌∷◌, ℕ, ◌+◌, ◌-◌, ◌^◌, ◌<◌, ◌≤◌, length, get_or};
ghost use Rattle.lists.specs.Scan.{part};
ghost use Rattle.lists.specs.Write.{ByWords};
ghost use Rattle.limits.specs.Limits.{body_limit};
ghost use Rattle.spec_sheet.specs.Row.{count_of};
ghost use Rattle.spec_body.specs.Record.{pairs};
ghost use Rattle.spec_carry.specs.Passes.{Carrying};
ghost use Rattle.carry.specs.Marks.{Marked};
ghost use Rattle.carry.specs.Plans.{Planning, Instruction};
ghost use Rattle.carry.specs.Ready.{ZerosBehind, Planned, carrying_in};
ghost use Rattle.carry.specs.Carried.{OperandsCarried, InstructionCarried, keep_first, ended_with, BytesCarried};

use crate::marks::Marks;
use crate::new_bits::Place;
use crate::opcodes::{OpcodeRow, State};
use crate::operand_carry::carry_operand;
use crate::plans::Plan;
use answers::refusal::{OperandFault, Refusal};
use numbers::words::put_word;
use slices::block::make_room;
use slices::write::put_bytes;

// The next place in the block, and the first operand that does not reach its target, counted from 1.
#[derive(Clone, Copy)]
pub struct Operands {
    pub next: usize,
    pub far: Option<usize>,
}

// What is wrong with which operand, counted from 1.
#[derive(Clone, Copy)]
pub struct OperandRefusal {
    pub fault: OperandFault,
    pub operand: usize,
}

// Carries the operands of an instruction by their plans.
fn carry_operands(
    plans: [Option<Plan>; 8],
    s: &[u8],
    place: Place,
    marks: Marks<'_>,
    block: &mut [u8],
    k: usize,
) -> Result<Operands, OperandRefusal>
    requires { Planning plans s.now place.old × (length s.now ≤ body_limit) × (place.new < 2 ^ 32) }
    ensures { (g : Planning plans s.now place.old) (x : Carrying) (i : ℕ) → Marked x marks.entry.places.now marks.entry.ids.now → ZerosBehind g.row → ZerosBehind g.row' → count_of g.row ≡ count_of g.row' → place.new ≡ get_or x.moved i 0 → OperandsCarried x i place.old place.new g.row g.row' (pairs g.row s.now (place.old + 1)) block.old k block.new result }
{
    let mut next = k;
    let mut far = None;
    let mut p = place.old + 1;
    for j in 0..8 {
        let Some(plan) = plans[j] else {
            return Ok(Operands { next, far });
        };
        match carry_operand(plan, s, p, place, marks, block, next) {
            Ok(Some(end)) => next = end,
            Ok(None) => far = far.or(Some(j + 1)),
            Err(fault) => {
                return Err(OperandRefusal {
                    fault,
                    operand: j + 1,
                });
            }
        }
        p += usize::from(plan.old_width);
    }
    Ok(Operands { next, far })
}

// Writes an instruction that keeps its bytes but for the opcode. One word is read and written, with no branch by its operands: a body
// of four opcodes takes a sixth fewer machine instructions so.
fn copy_instruction(row: OpcodeRow, s: &[u8], at: usize, block: &mut [u8], n: usize) -> usize
    requires { (at + 8 ≤ length s.now) × (row.opcode < 256) × (1 ≤ row.length) × (row.length ≤ 8) }
    ensures { ByWords block.old n (row.opcode ∷ part s.now (at + 1) (row.length - 1)) block.new result }
{
    let word = numbers::little_endian::read_of_eight(s, at, 8);
    let opcode = row.opcode as u64;
    put_word(block, n, row.length, word / 256 * 256 + opcode)
}

// Carries an instruction by the row and the plans of its opcode.
fn carry_instruction(
    row: OpcodeRow,
    plans: [Option<Plan>; 8],
    s: &[u8],
    place: Place,
    marks: Marks<'_>,
    block: &mut [u8],
    n: usize,
) -> Result<Operands, OperandRefusal>
    requires { Instruction row plans s.now place.old × (length s.now ≤ body_limit) × (place.new < 2 ^ 32) }
    ensures { (g : Instruction row plans s.now place.old) (x : Carrying) (i : ℕ) → Marked x marks.entry.places.now marks.entry.ids.now → ZerosBehind g.planning.row → ZerosBehind g.planning.row' → count_of g.planning.row ≡ count_of g.planning.row' → place.new ≡ get_or x.moved i 0 → InstructionCarried x i place.old place.new row.opcode g.planning.row g.planning.row' (pairs g.planning.row s.now (place.old + 1)) block.old n block.new result }
{
    if row.state == State::Copied && place.old + 8 <= s.len() {
        return Ok(Operands {
            next: copy_instruction(row, s, place.old, block, n),
            far: None,
        });
    }
    let b = put_word(block, n, 1, row.opcode as u64);
    carry_operands(plans, s, place, marks, block, b)
}

// An 8: its instruction, counted from 0, and its operand, counted from 1.
#[derive(Clone, Copy)]
pub struct Far {
    pub instruction: usize,
    pub operand: usize,
}

// The first 8, where `first` is that of the instructions before i, and `far` the operand of i that has one.
fn keep_first(first: Option<Far>, i: usize, far: Option<usize>) -> Option<Far>
    ensures { result ≡ keep_first first i far }
{
    first.or(far.map(|operand| Far {
        instruction: i,
        operand,
    }))
}

// How a body ends whose first pass is over: k bytes are written, or there is an 8.
fn ended(k: usize, first: Option<Far>) -> Result<usize, Refusal>
    ensures { result ≡ ended_with k first }
{
    match first {
        None => Ok(k),
        Some(far) => Err(Refusal::BadOperand(OperandFault::Distance, far.instruction, far.operand)),
    }
}

// Instructions are gathered in a block, so that they are written by words. Its length stands beside it: memory is fixed, no Vec holds it.
const BLOCK: usize = 2048;

// Where a block may be and still have room for an instruction of 65 bytes and a word.
const INSTRUCTION_START: usize = 1968;

// Carries all instructions of a body, from the front of the output on: how many bytes it has, or the first refusal.
pub(crate) fn carry_instructions(
    plans: &[[Option<Plan>; 8]; 256],
    rows: &[OpcodeRow; 256],
    s: &[u8],
    marks: Marks<'_>,
    out: &mut [u8],
) -> Result<usize, Refusal>
    requires { Planned plans.now rows.now s.now marks.places.now marks.ids.now }
    ensures { (g : Planned plans.now rows.now s.now marks.entry.places.now marks.entry.ids.now) → BytesCarried (carrying_in g.ready) g.ready.records out.old out.new result }
{
    let mut block = [0u8; BLOCK];
    let mut n: usize = 0;
    let mut k: usize = 0;
    let mut new: usize = 0;
    let mut i: usize = 0;
    let mut first = None;
    let mut at: usize = 0;
    while at < s.len() {
        let gathered = make_room(out, k, &block, n, INSTRUCTION_START);
        k = gathered.next;
        let op = s[at] as usize;
        let row = rows[op];
        match row.state {
            State::Missing => return Err(Refusal::UnknownName(i)),
            State::OtherCount => return Err(Refusal::OperandCount(i)),
            State::Known | State::Copied => {}
        }
        let place = Place { old: at, new };
        match carry_instruction(row, plans[op], s, place, marks, &mut block, gathered.kept) {
            Ok(done) => {
                n = done.next;
                first = keep_first(first, i, done.far);
            }
            Err(bad) => return Err(Refusal::BadOperand(bad.fault, i, bad.operand)),
        }
        new += row.new_length;
        at += row.length;
        i += 1;
    }
    let end = put_bytes(out, k, &block[0..n]);
    ended(end, first)
}
