// Reading a case from standard input. A read that fails ends the input, and the source keeps the failure for `main`.
ghost use Rattle.std.specs.Prelude.{◌≡◌, ◌<◌, ◌≤◌, length, None, Err, IsOk, IsSome, MatchOption};
ghost use Rattle.replay.specs.Cases.{number_at, head_of, Reads, Fronted, PartsRead};

use crate::Stop;
use answers::report::Numbers;
use numbers::little_endian::read_le;
use reading::read_full;
use std::io;
use std::io::Stdin;

// Standard input, and the failure of the read that ended it, if one failed. Behind a failure there is no further byte.
#[derive(Drop)]
pub struct Source {
    stdin: Stdin,
    failure: Option<io::Error>,
}

impl Source {
    pub fn new(stdin: Stdin) -> Self
        ensures { result.failure ≡ None }
    {
        Source {
            stdin,
            failure: None,
        }
    }

    // Reads to the front of s until it is full or there is no further byte, and answers how many bytes are there.
    fn fill(&mut self, s: &mut [u8]) -> usize
        ensures within { result ≤ length s.new }
        ensures ended { IsSome self.old.failure → result ≡ 0 }
    {
        if self.failure.is_some() {
            return 0;
        }
        match read_full(&mut self.stdin, s) {
            Ok(n) => n,
            Err(e) => {
                self.failure = Some(e);
                0
            }
        }
    }

    // Whether all reads succeeded: the failure, if one failed.
    pub fn finish(self) -> io::Result<()>
        ensures { MatchOption self.failure (IsOk result) (λ e. result ≡ Err e) }
    {
        match self.failure {
            None => Ok(()),
            Some(e) => Err(e),
        }
    }
}

// The numbers in front of a case, with the recorded answer among them.
#[derive(Clone, Copy)]
pub struct Head {
    pub operation: u64,
    pub sheet: usize,
    pub input: usize,
    pub room: usize,
    pub answer: Numbers,
    pub expected: usize,
}

fn number_at(b: &[u8; 36], i: usize) -> u64
    requires { i < 9 }
    ensures { result ≡ number_at b.now i }
{
    read_le(b, 4 * i, 4)
}

fn size_at(b: &[u8; 36], i: usize) -> usize
    requires { i < 9 }
    ensures { result ≡ number_at b.now i }
{
    number_at(b, i) as usize
}

// The numbers in front of a case, by their bytes.
fn head_of(b: &[u8; 36]) -> Head
    ensures { result ≡ head_of b.now }
{
    Head {
        operation: number_at(b, 0),
        sheet: size_at(b, 1),
        input: size_at(b, 2),
        room: size_at(b, 3),
        answer: Numbers {
            number: number_at(b, 4),
            place: number_at(b, 5),
            operand: number_at(b, 6),
            length: number_at(b, 7),
        },
        expected: size_at(b, 8),
    }
}

// The next case's numbers, or that there is no further case or less than its numbers.
pub fn read_head(source: &mut Source) -> Result<Head, Stop>
    ensures { Reads result }
{
    let mut b = [0u8; 36];
    let got = source.fill(&mut b);
    if got == 0 {
        return Err(Stop::End);
    }
    if got != 36 {
        return Err(Stop::Broken);
    }
    Ok(head_of(&b))
}

// Reads n bytes to the front of s, where they fit and are all there.
fn read_front(source: &mut Source, s: &mut [u8], n: usize) -> Result<(), Stop>
    ensures { Fronted s.old n s.new result }
{
    if s.len() < n {
        return Err(Stop::Broken);
    }
    if source.fill(&mut s[0..n]) != n {
        return Err(Stop::Broken);
    }
    Ok(())
}

// Reads the sheet, the input and the expected output, each to the front of its space.
pub fn read_parts(
    source: &mut Source,
    head: Head,
    sheet: &mut [u8],
    input: &mut [u8],
    expected: &mut [u8],
) -> Result<(), Stop>
    ensures { PartsRead head sheet.old input.old expected.old sheet.new input.new expected.new result }
{
    read_front(source, sheet, head.sheet)?;
    read_front(source, input, head.input)?;
    read_front(source, expected, head.expected)
}

// Whether standard input has no further byte.
pub fn at_end(source: &mut Source) -> bool {
    let mut b = [0u8; 1];
    source.fill(&mut b) == 0
}
