// A line of a sheet that says one opcode: `op=18 name=Jmp jump=1 types=Addr8`.
ghost use Rattle.std.specs.Prelude.{◌≡◌};
ghost use Rattle.spec_sheet.specs.Line.{types_from, types_at, head_at, jump_at, line_types, line_at};
ghost use Rattle.spec_sheet.specs.Scan.{keyed_at};
ghost use Rattle.lists.specs.Text.{text};
ghost use Rattle.sheet.specs.Answers.{step_of};
ghost use Rattle.sheet.specs.Lines.{types_of, head_of, line_of};

use crate::scan::Reading;

// Operand types in a row of eight, how many there are, and the place behind them.
#[derive(Clone, Copy)]
pub struct Types {
    pub row: [u8; 8],
    pub count: usize,
    pub next: usize,
}

// One type or more with commas between, at most eight.
fn types_from(s: &[u8], from: usize) -> Option<Types>
    ensures { result ≡ types_of (types_from 8 s.now from) }
{
    let mut row = [0u8; 8];
    let mut at = from;
    for i in 0..8 {
        let t = crate::scan::type_at(s, at)?;
        row[i] = (t.value % 256) as u8;
        if !crate::scan::byte_is(s, t.next, 44) {
            return Some(Types {
                row,
                count: i + 1,
                next: t.next,
            });
        }
        at = t.next + 1;
    }
    None
}

// The operand types of a line: `-` stands for none.
fn types_at(s: &[u8], at: usize) -> Option<Types>
    ensures { result ≡ types_of (types_at s.now at) }
{
    if crate::scan::byte_is(s, at, 45) {
        return Some(Types {
            row: [0; 8],
            count: 0,
            next: at + 1,
        });
    }
    types_from(s, at)
}

// An opcode's number, where its name starts, how long it is, and the place behind it.
#[derive(Clone, Copy)]
pub struct Head {
    pub code: usize,
    pub start: usize,
    pub size: usize,
    pub next: usize,
}

// The number of an opcode line between its texts, first by words, which takes less than half the instructions.
fn op_at(s: &[u8], at: usize) -> Option<Reading>
    ensures { result ≡ step_of (keyed_at (text "op=") 255 (text " name=") s.now at) }
{
    crate::line_word::quick_op(s, at).or_else(|| crate::scan::keyed_at(
        s, at, b"op=", 255, b" name=",
    ))
}

fn head_at(s: &[u8], at: usize) -> Option<Head>
    ensures { result ≡ head_of (head_at s.now at) }
{
    let op = op_at(s, at)?;
    let name = crate::scan::name_at(s, op.next)?;
    Some(Head {
        code: op.value as usize,
        start: op.next,
        size: name.value as usize,
        next: name.next,
    })
}

// One opcode line: the opcode, its row of type codes, its operand count, jump mark and name, and the place behind it.
#[derive(Clone, Copy)]
pub struct Line {
    pub code: usize,
    pub row: [u8; 8],
    pub info: [usize; 4],
    pub next: usize,
}

// The operand types and the end of a line whose number, name and jump mark were read.
fn line_types(s: &[u8], head: Head, jump: usize, at: usize) -> Option<Line>
    ensures { result ≡ line_of (line_types s.now head.code head.start head.size jump (types_at s.now at)) }
{
    let types = types_at(s, at)?;
    let next = crate::scan::literal_at(s, types.next, b"\n")?;
    let row = types.row;
    Some(Line {
        code: head.code,
        row,
        info: [types.count, jump, head.start, head.size],
        next,
    })
}

// The jump mark between its texts: first the two forms that there are, by words, then any other text, which is malformed.
fn jump_at(s: &[u8], at: usize) -> Option<Reading>
    ensures { result ≡ step_of (jump_at s.now at) }
{
    crate::line_word::quick_jump(s, at).or_else(|| crate::scan::keyed_at(
        s, at, b" jump=", 1, b" types=",
    ))
}

// A whole opcode line.
pub fn line_at(s: &[u8], at: usize) -> Option<Line>
    ensures { result ≡ line_of (line_at s.now at) }
{
    let head = head_at(s, at)?;
    let jump = jump_at(s, head.next)?;
    line_types(s, head, jump.value as usize, jump.next)
}
