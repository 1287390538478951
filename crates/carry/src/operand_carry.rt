// One operand of an instruction in both passes of document 01: read, checked and written in one step.
ghost use Rattle.std.specs.Prelude.{◌≡◌, ℕ, ◌+◌, ◌^◌, ◌<◌, ◌≤◌, length, get_or};
ghost use Rattle.limits.specs.Limits.{body_limit};
ghost use Rattle.lists.specs.Scan.{part};
ghost use Rattle.spec_numbers.specs.LittleEndian.{le};
ghost use Rattle.spec_sheet.specs.Types.{width_of};
ghost use Rattle.spec_carry.specs.Passes.{Carrying};
ghost use Rattle.carry.specs.Marks.{Marked};
ghost use Rattle.carry.specs.Plans.{planned, IsPlan};
ghost use Rattle.carry.specs.Carried.{OperandCarried};

use crate::marks::Marks;
use crate::new_bits::Place;
use crate::plans::Plan;
use answers::refusal::OperandFault;

// Carries the operand at p, by its plan, into a block at k: the next place there, or none where an Addr8 does not reach its target,
// 8, and nothing is written; or the first pass's refusal. It is written by one store, whatever its width.
pub(crate) fn carry_operand(
    plan: Plan,
    s: &[u8],
    p: usize,
    place: Place,
    marks: Marks<'_>,
    block: &mut [u8],
    k: usize,
) -> Result<Option<usize>, OperandFault>
    requires { IsPlan plan × (p + plan.old_width ≤ length s.now) × (place.old ≤ body_limit) × (place.new < 2 ^ 32) }
    ensures { (x : Carrying) (i q c d : ℕ) → Marked x marks.entry.places.now marks.entry.ids.now → place.new ≡ get_or x.moved i 0 → plan ≡ planned c d → OperandCarried x i place.old q place.new c d (le (part s.now p (width_of c))) block.old k block.new result }
{
    let bits = numbers::little_endian::read_le(s, p, usize::from(plan.old_width));
    let Some(moved) = crate::new_bits::new_bits(plan, place, bits, marks)? else {
        return Ok(None);
    };
    Ok(Some(numbers::words::put_word(block, k, usize::from(plan.new_width), moved)))
}
