// What is written of one operand, or why it cannot be carried: its number, the id of its text or its distance under the second
// sheet, in both passes of document 01 at once.
ghost use Rattle.std.specs.Prelude.{◌≡◌, ℕ, ◌+◌, ◌-◌, ◌*◌, ◌/◌, ◌^◌, ◌<◌, ◌≤◌, get_or};
ghost use Rattle.limits.specs.Limits.{body_limit};
ghost use Rattle.spec_carry.specs.Passes.{Carrying, near, distance_bits};
ghost use Rattle.carry.specs.Marks.{marked, Marked};
ghost use Rattle.carry.specs.Plans.{planned, IsPlan};
ghost use Rattle.carry.specs.NewBits.{AddrWidth, number_into, id_into, target_mark, distance_into, address_into, Moved};

use crate::marks::{Marks, marked};
use crate::plans::{Action, Plan};
use answers::refusal::OperandFault;

// Where an instruction stood, and where it stands in the result.
#[derive(Clone, Copy)]
pub struct Place {
    pub old: usize,
    pub new: usize,
}

// A number into a type of w bytes.
fn number_into(w: usize, n: u64) -> Result<u64, OperandFault>
    ensures { result ≡ number_into w n }
{
    if operand::write::fits_in(w, n) {
        return Ok(n);
    }
    Err(OperandFault::NotCarried)
}

// The second table's id of a text, by its id in the first, into a type of w bytes.
fn id_into(w: usize, id: u64, ids: &[u32]) -> Result<u64, OperandFault>
    ensures { result ≡ id_into w id ids.now }
{
    let Some(&mark) = ids.get(id as usize) else {
        return Err(OperandFault::NotCarried);
    };
    let Some(new) = marked(mark) else {
        return Err(OperandFault::Text);
    };
    number_into(w, new as u64)
}

// The new place that a map has at an old one.
fn place_at(map: &[u32], place: u64) -> Option<usize>
    ensures { result ≡ marked (get_or map.now place 0) }
{
    let &mark = map.get(place as usize)?;
    marked(mark)
}

// How many numbers the w bytes of an Addr hold. The upper half stands for negative distances.
fn numbers_of(w: usize) -> u64
    requires { AddrWidth w }
    ensures { (result ≡ 2 ^ (8 * w)) × (result / 2 ≡ 2 ^ (8 * w - 1)) × (result ≡ 256 ^ w) × (result ≤ 2 ^ 32) }
{
    if w == 1 {
        return 0x100;
    }
    0x1_0000_0000
}

// The new place of what an Addr of w bytes leads to.
fn target(w: usize, at: usize, bits: u64, map: &[u32]) -> Option<usize>
    requires { (at ≤ body_limit) × AddrWidth w × (bits < 256 ^ w) }
    ensures { result ≡ marked (target_mark w at bits map.now) }
{
    let numbers = numbers_of(w);
    let sum = at as u64 + bits;
    if bits < numbers / 2 {
        return place_at(map, sum);
    }
    if sum < numbers {
        return None;
    }
    place_at(map, sum - numbers)
}

// Whether an Addr8 reaches from one place to another.
fn is_near(at: usize, place: usize) -> bool
    ensures { result ≡ near at place }
{
    if at <= place {
        return place - at <= 127;
    }
    at - place <= 128
}

// The two's complement of a distance, among `full` numbers.
fn distance_bits(full: usize, at: usize, place: usize) -> usize
    requires { at ≤ place + full }
    ensures { (w : ℕ) → 2 ^ (8 * w) ≡ full → result ≡ distance_bits w at place }
{
    if at <= place {
        return place - at;
    }
    full - (at - place)
}

// The distance from a place to another in an Addr of w bytes; none where it does not reach.
fn distance_into(w: usize, at: usize, place: usize) -> Option<u64>
    requires { (at < 2 ^ 32) × AddrWidth w }
    ensures { result ≡ distance_into w at place }
{
    if w != 1 {
        return Some(distance_bits(0x1_0000_0000, at, place) as u64);
    }
    if is_near(at, place) {
        return Some(distance_bits(0x100, at, place) as u64);
    }
    None
}

// An Addr, by its widths under both sheets.
fn address_into(
    w: usize,
    w2: usize,
    place: Place,
    bits: u64,
    map: &[u32],
) -> Result<Option<u64>, OperandFault>
    requires { (place.old ≤ body_limit) × (place.new < 2 ^ 32) × AddrWidth w × AddrWidth w2 × (bits < 256 ^ w) }
    ensures { result ≡ address_into w2 place.new (target_mark w place.old bits map.now) }
{
    let Some(target) = target(w, place.old, bits, map) else {
        return Err(OperandFault::Address);
    };
    Ok(distance_into(w2, place.new, target))
}

// The operand of a plan, with these bits: what is written of it, or none where an Addr8 does not reach its target, 8; or the first
// pass's refusal.
pub(crate) fn new_bits(
    plan: Plan,
    place: Place,
    bits: u64,
    marks: Marks<'_>,
) -> Result<Option<u64>, OperandFault>
    requires { IsPlan plan × (place.old ≤ body_limit) × (place.new < 2 ^ 32) × (bits < 256 ^ plan.old_width) }
    ensures { (x : Carrying) (i q c d : ℕ) → Marked x marks.entry.places.now marks.entry.ids.now → place.new ≡ get_or x.moved i 0 → plan ≡ planned c d → Moved x i place.old q place.new c d bits result }
{
    let width = usize::from(plan.new_width);
    match plan.action {
        Action::Keeps => Ok(Some(bits)),
        Action::Number => Ok(Some(number_into(width, bits)?)),
        Action::String => Ok(Some(id_into(width, bits, marks.ids)?)),
        Action::Addr => address_into(
            usize::from(plan.old_width),
            width,
            place,
            bits,
            marks.places,
        ),
        Action::OtherFamily => Err(OperandFault::NotCarried),
    }
}
