// Replays recorded cases: reads them from standard input, has the desk answer each, and compares the answer and the lent
// space with what was recorded. It prints one line: `agree=N` where all N cases agree, else `differs=N` or `broken=N`
// with the index, from 0, of the first case that differs or is no case.
//
// The format. Numbers are u32, little-endian. A case is nine numbers
//
//     operation, sheet length, input length, room, number, place, operand, length, expected length
//
// and behind them the bytes of the sheet, of the input and of the expected output, as many as the lengths say.
// - A sheet length of 0 stands for the sheet of the case before; before the first case it is the empty sheet.
// - `room` is how much space is lent: words where records are decoded, bytes elsewhere. Every byte of it is 0xA5 before
//   the call.
// - `number`, `place`, `operand` and `length` are the recorded answer.
// - The expected output is what the call leaves at the front of the lent space. A word is its 8 little-endian bytes.
//
// The operations:
//
//     1  decode              input: a body; expected: the words of its records
//     2  encode              input: the words of records; expected: the body
//     3  part_parse_u32      input: a text; expected: the value's 8 bytes, or nothing where the text is no number
//     4  part_parse_hex      as 3
//     5  part_parse_i32      as 3; the value is the 32 bits of the number
//     6  part_parse_double   as 3; the value is the 64 bits of the double
//     7  part_print_decimal  input: a number's 8 bytes; expected: its text
//     8  part_print_signed   as 7, for the 32 bits of a number
//     9  part_print_hex4     as 7
//    10  part_print_double   as 7, for the 64 bits of a double
//    11  part_escape         input: a text; expected: the text that comes of it
//    12  part_unescape       as 11
//    13  assemble            input: three numbers, the count of strings, of their bytes and of the label entries lent; the
//                            strings' ends, their bytes, the text; expected: the body
//    14  job::run            input: a job; expected: what the program prints
//
// 3 to 6 lend nothing: their room is 0 and is not looked at. They answer number 0 where the text is a number, else 1, and
// length 0.
// 7 to 12 and 14 answer number 0 and the whole text's length. In a smaller room the expected output is the text's front.
//
// A case agrees where the four numbers are the answer's, the lent space opens with the expected output, and behind it
// every byte is still 0xA5 (number 0), or every lent byte is 0 (a refusal). Label entries, which are 0xA5 too before the
// call, have to be zero in any case.
//
// A case is broken where standard input ends within it, its operation is none of these, its input is not of the
// operation's form (words that are cut, a number that is not 8 bytes or, for 8, not below 2^32), or it is too large:
// a sheet over 16,384 bytes, an input or expected output over 65,536 bytes, a room over 8,192 words or 65,536 bytes, more
// than 64 strings or label entries, or a case behind the first 1,000,000.
#![tactic(auto)]

mod assembling;
mod case;
mod lent;
mod operations;
mod parts;

ghost use Rattle.std.specs.Prelude.{◌≡◌, length};
ghost use Rattle.replay.specs.Cases.{sheet_size};
ghost use Rattle.replay.specs.Turns.{compared_on, case_turn, Tried, Next, Replayed};

use crate::case::{Head, Source};
use slices::part::part_of;
use slices::space::zeroed;
use std::io;

// Why the replay stops at a case: its answer or lent space is another than recorded, it is no case, or there is none.
#[derive(Clone, Copy)]
pub(crate) enum Stop {
    Differs,
    Broken,
    End,
}

// What comes of all cases: the first `agreed` of them agree.
#[derive(Clone, Copy)]
struct Outcome {
    stop: Stop,
    agreed: u64,
}

const MOST_CASES: u64 = 1000000;

// The most bytes of a sheet, and of any other part or the lent space.
const MOST_SHEET: usize = 16384;

const MOST_BYTES: usize = 65536;

// Runs a case whose parts have been read, and compares. `lent` has as many bytes as the case lends. Where the case agrees, its sheet,
// which the next case may use, has as many bytes as are answered.
fn compared(
    head: Head,
    sheet: &[u8],
    input: &[u8],
    expected: &[u8],
    lent: &mut [u8],
) -> Result<usize, Stop>
    ensures { result ≡ compared_on (length lent.old) head sheet.now input.now expected.now }
{
    lent.fill(crate::lent::FILL);
    let a = operations::perform(head.operation, sheet, input, lent)?;
    if !crate::parts::same_answer(head, a) {
        return Err(Stop::Differs);
    }
    if !crate::lent::is_left(lent, expected, a.number) {
        return Err(Stop::Differs);
    }
    Ok(sheet.len())
}

// Lends as many bytes as the case says, and compares.
fn lend(head: Head, sheet: &[u8], input: &[u8], expected: &[u8]) -> Result<usize, Stop>
    ensures { result ≡ case_turn head sheet.now input.now expected.now }
{
    let size = crate::parts::lent_size(head.operation, head.room);
    if MOST_BYTES < size {
        return Err(Stop::Broken);
    }
    let mut lent = zeroed::<u8, MOST_BYTES>(0);
    compared(head, sheet, input, expected, &mut lent[0..size])
}

// How many bytes the sheet of a case has; `used` is that of the case before.
fn sheet_size(head: Head, used: usize) -> usize
    ensures { result ≡ sheet_size head used }
{
    if head.sheet == 0 { used } else { head.sheet }
}

// Reads the parts of a case, and compares.
fn try_case(
    source: &mut Source,
    head: Head,
    used: usize,
    sheet: &mut [u8],
    input: &mut [u8],
    expected: &mut [u8],
) -> Result<usize, Stop>
    ensures { Tried head used sheet.old sheet.new input.new expected.new result }
{
    crate::case::read_parts(source, head, sheet, input, expected)?;
    lend(
        head,
        part_of(sheet, 0, sheet_size(head, used)),
        part_of(input, 0, head.input),
        part_of(expected, 0, head.expected),
    )
}

// The next case.
fn next_case(
    source: &mut Source,
    used: usize,
    sheet: &mut [u8],
    input: &mut [u8],
    expected: &mut [u8],
) -> Result<usize, Stop>
    ensures { Next used sheet.old sheet.new input.new expected.new result }
{
    let head = crate::case::read_head(source)?;
    try_case(source, head, used, sheet, input, expected)
}

// Behind the last case that may be there.
fn last_stop(source: &mut Source) -> Stop {
    if crate::case::at_end(source) {
        Stop::End
    } else {
        Stop::Broken
    }
}

// All cases.
fn replay(source: &mut Source, sheet: &mut [u8], input: &mut [u8], expected: &mut [u8]) -> Outcome
    ensures { Replayed result }
{
    let mut used = 0;
    for agreed in 0..MOST_CASES {
        match next_case(source, used, sheet, input, expected) {
            Ok(size) => used = size,
            Err(stop) => return Outcome { stop, agreed },
        }
    }
    Outcome {
        stop: last_stop(source),
        agreed: MOST_CASES,
    }
}

// The line that says how many cases agree, or which is the first that does not.
fn tell(rt: &impl Print, o: Outcome) -> io::Result<()> {
    let n = o.agreed;
    match o.stop {
        Stop::Differs => println!(rt; "differs={n}"),
        Stop::Broken => println!(rt; "broken={n}"),
        Stop::End => println!(rt; "agree={n}"),
    }
}

// A read that failed is the answer, whatever came of the cases before.
fn main(rt: HostRuntime) -> io::Result<()> {
    let mut source = Source::new(rt.stdin());
    let mut sheet = zeroed::<u8, MOST_SHEET>(0);
    let mut input = zeroed::<u8, MOST_BYTES>(0);
    let mut expected = zeroed::<u8, MOST_BYTES>(0);
    let outcome = replay(&mut source, &mut sheet, &mut input, &mut expected);
    source.finish()?;
    tell(&rt, outcome)
}
