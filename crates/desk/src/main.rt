// The desk program: a job on standard input, what it prints on standard output.
#![tactic(auto)]

use reading::read_full;
use slices::part::part_of;
use slices::space::zeroed;
use std::io;

// One byte more than a job may have, so that a longer one is seen.
const JOB_SPACE: usize = 65537;

// Room for all that a job may print: `body=`, two digits for each of the 65,536 output bytes that it is lent, and LF.
const TEXT_SPACE: usize = 131078;

fn main(rt: HostRuntime) -> io::Result<()> {
    let mut job = zeroed::<u8, JOB_SPACE>(0);
    let n = read_full(&mut rt.stdin(), &mut job)?;
    let mut text = zeroed::<u8, TEXT_SPACE>(0);
    // There is room for all that a job may print.
    let Some(k) = job::run::run(&job[..n], &mut text) else {
        return Ok(());
    };
    rt.write_all(part_of(&text, 0, k))
}
