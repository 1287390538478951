// The answer of an operation, how much an operation lends, and the operations on numbers and escapes.
ghost use Rattle.std.specs.Prelude.{◌≡◌, Ok};
ghost use Rattle.answers.specs.Report.{success};
ghost use Rattle.answers.specs.Numbers.{numbers_of};
ghost use Rattle.replay.specs.Cases.{lent_size, same_answer};
ghost use Rattle.replay.specs.Performs.{done, valued, number_printed, input_printed, part_performed};

use crate::Stop;
use crate::case::Head;
use answers::report::Numbers;
use desk_parts::PartNumber;
use numbers::little_endian::{put_le, read_le};
use slices::clearing::clear;

// How many bytes an operation lends for a room. One that reads a number has the 8 bytes of its value there. A room past
// the limit stays past it.
pub fn lent_size(operation: u64, room: usize) -> usize
    ensures { result ≡ lent_size operation room }
{
    if 65536 < room {
        return room;
    }
    match operation {
        1 => 8 * room,
        3..=6 => 8,
        _ => room,
    }
}

// Has the desk print or read a number, or write or read escapes.
pub fn perform_part(operation: u64, input: &[u8], lent: &mut [u8]) -> Result<Numbers, Stop>
    ensures { done result lent.new ≡ part_performed operation input.now lent.old }
{
    match operation {
        3 => Ok(value_read(desk_parts::part_parse_u32(input), lent)),
        4 => Ok(value_read(desk_parts::part_parse_hex(input), lent)),
        5 => Ok(value_read(desk_parts::part_parse_i32(input), lent)),
        6 => Ok(value_read(desk_parts::part_parse_double(input), lent)),
        11 => Ok(written(desk_parts::part_escape(input, lent))),
        12 => Ok(written(desk_parts::part_unescape(input, lent))),
        _ => print(operation, input, lent),
    }
}

// The operations that print the number whose 8 bytes are the input.
fn print(operation: u64, input: &[u8], lent: &mut [u8]) -> Result<Numbers, Stop>
    ensures { done result lent.new ≡ input_printed operation input.now lent.old }
{
    if input.len() != 8 {
        return Err(Stop::Broken);
    }
    let n = read_le(input, 0, 8);
    match operation {
        7 => Ok(written(desk_parts::part_print_decimal(n, lent))),
        8 => print_signed(n, lent),
        9 => Ok(written(desk_parts::part_print_hex4(n, lent))),
        10 => Ok(written(desk_parts::part_print_double(n, lent))),
        _ => Err(Stop::Broken),
    }
}

fn print_signed(n: u64, lent: &mut [u8]) -> Result<Numbers, Stop>
    ensures { done result lent.new ≡ number_printed 8 n lent.old }
{
    if 0xffff_ffff < n {
        return Err(Stop::Broken);
    }
    Ok(written(desk_parts::part_print_signed(n as u32, lent)))
}

// A text of n bytes was written.
pub fn written(n: usize) -> Numbers
    ensures { result ≡ numbers_of (success n) }
{
    answered(0, n as u64)
}

// A number was read, and its value goes to the lent bytes, or the text is none.
fn value_read(n: PartNumber, lent: &mut [u8]) -> Numbers
    ensures { done (Ok result) lent.new ≡ valued n lent.old }
{
    if n.found == 1 {
        put_le(lent, 0, 8, n.value);
        return answered(0, 0);
    }
    clear(lent, 0);
    answered(1, 0)
}

fn answered(number: u64, length: u64) -> Numbers
    ensures { result ≡ numbers_of (record { number = number; place = 0; operand = 0; length = length }) }
{
    Numbers {
        number,
        place: 0,
        operand: 0,
        length,
    }
}

// Whether an answer is the recorded one.
pub fn same_answer(head: Head, a: Numbers) -> bool
    ensures { result ≡ same_answer head a }
{
    let b = head.answer;
    if b.number != a.number {
        return false;
    }
    if b.place != a.place {
        return false;
    }
    if b.operand != a.operand {
        return false;
    }
    b.length == a.length
}
