// The record of one instruction.
ghost use Rattle.std.specs.Prelude.{◌≡◌, ◌+◌, ◌-◌, ◌*◌, ◌≤◌, length, drop, replicate, set};
ghost use Rattle.std.proofs.Math.Seq.{paste};
ghost use Rattle.lists.specs.Scan.{part};
ghost use Rattle.spec_numbers.specs.LittleEndian.{le};
ghost use Rattle.spec_sheet.specs.Row.{length_of};
ghost use Rattle.spec_body.specs.Record.{pairs, record_of};
ghost use Rattle.decode.specs.Tables.{PlanOf};

use crate::pair::put_pair;
use crate::tables::{COUNT, FIFTH_START, LENGTH, Plan};
use slices::widen::{byte_index, wide_byte};

// Writes an operand's kind, and its bits out of the eight bytes that end with it.
fn put_operand(out: &mut [u64], k: usize, s: &[u8], start: usize, end: usize, kind: u8)
    requires { (k + 2 ≤ length out.old) × (start ≤ end) × (end ≤ length s.now) × (8 ≤ end) × (end ≤ start + 8) }
    ensures { out.new ≡ set (set out.old k kind) (k + 1) (le (part s.now start (end - start))) }
{
    let bits = numbers::little_endian::read_of_eight(s, start, end - start);
    put_pair(out, k, wide_byte(kind), bits);
}

// Writes four pairs of 0.
fn put_no_operands(out: &mut [u64], k: usize)
    requires { k + 8 ≤ length out.old }
    ensures { out.new ≡ paste out.old k (replicate 8 0) 8 }
{
    out[k..k + 8].fill(0);
}

// An instruction of a body, and its opcode's row of type codes and plan.
#[derive(Clone, Copy)]
pub(crate) struct Instruction<'a> {
    pub(crate) row: [u8; 8],
    pub(crate) plan: &'a Plan,
    pub(crate) body: &'a [u8],
    pub(crate) at: usize,
    pub ghost planned: { PlanOf row plan.now },
    pub ghost whole: { at + length_of row ≤ length body.now },
}

impl<'a> Instruction<'a> {
    // Writes the eight pairs of kind and bits from word k on: those of the operands' values.
    fn put_values(&self, out: &mut [u64], k: usize)
        requires { k + 16 ≤ length out.old }
        ensures { out.new ≡ paste out.old k (pairs self.now.row self.now.body.now (self.now.at + 1)) 16 }
    {
        let mut p = self.at + 1;
        for (i, &c) in self.row.iter().enumerate() {
            let o = operand::read::read_operand(c, self.body, p);
            let value = o.value;
            let kind = operand::value::kind_of(value);
            let bits = operand::value::bits_of(value, o.bits);
            put_pair(out, k + 2 * i, wide_byte(kind), bits);
            p = o.next;
        }
    }

    // Writes the pairs of four operands, the first of them number `from`, by the plan.
    fn put_four(&self, out: &mut [u64], k: usize, from: usize)
        requires { (8 ≤ self.now.at) × (from ≤ 4) × (k + 8 ≤ length out.old) }
        ensures { out.new ≡ paste out.old k (drop (2 * from) (pairs self.now.row self.now.body.now (self.now.at + 1))) 8 }
    {
        for i in 0..4 {
            let j = 2 * (from + i);
            let start = self.at + byte_index(self.plan[j]);
            let end = self.at + byte_index(self.plan[j + 2]);
            put_operand(out, k + 2 * i, self.body, start, end, self.plan[j + 1]);
        }
    }

    // The eight pairs by the opcode's plan, where eight bytes end with each operand's. Most of a body goes this way: no branch
    // depends on a type, and no operand's place on the one before it. Where the fifth operand starts at the instruction's end there
    // are four at most.
    fn put_by_plan(&self, out: &mut [u64], k: usize)
        requires { (8 ≤ self.now.at) × (k + 16 ≤ length out.old) }
        ensures { out.new ≡ paste out.old k (pairs self.now.row self.now.body.now (self.now.at + 1)) 16 }
    {
        self.put_four(out, k, 0);
        if self.plan[FIFTH_START] == self.plan[LENGTH] {
            put_no_operands(out, k + 8);
        } else {
            self.put_four(out, k + 8, 4);
        }
    }

    // The one or the other.
    fn put_operands(&self, out: &mut [u64], k: usize)
        requires { k + 16 ≤ length out.old }
        ensures { out.new ≡ paste out.old k (pairs self.now.row self.now.body.now (self.now.at + 1)) 16 }
    {
        if 8 <= self.at {
            self.put_by_plan(out, k);
        } else {
            self.put_values(out, k);
        }
    }

    // Writes the record from word k on.
    pub(crate) fn put_record(&self, out: &mut [u64], k: usize)
        requires { k + 20 ≤ length out.old }
        ensures { out.new ≡ paste out.old k (record_of self.now.row self.now.body.now self.now.at) 20 }
    {
        put_pair(out, k, self.at as u64, wide_byte(self.body[self.at]));
        let plan = self.plan;
        put_pair(out, k + 2, wide_byte(plan[LENGTH]), wide_byte(plan[COUNT]));
        self.put_operands(out, k + 4);
    }
}
