// A job's bytes in, the printed bytes out: all that the program does but reading and writing.
ghost use Rattle.std.specs.Prelude.{[], ◌≤◌, length};
ghost use Rattle.limits.specs.Limits.{job_limit};
ghost use Rattle.answers.specs.Outcome.{Ended};
ghost use Rattle.spec_job.specs.Printed as operation;
ghost use Rattle.spec_job.specs.Printed.{printed_job, printed};
ghost use Rattle.job.specs.Run.{run_report};
ghost use Rattle.job.specs.ReaderAnswers.{read_work};
ghost use Rattle.job.specs.Prints.{Prints};

use crate::printed::refused;
use crate::reader::{Asked, HEX_BYTES, Inputs, MOST_STRINGS, Work, inputs_at, which_job};
use answers::refusal::Refusal;
use sheet::tables::Tables;
use slices::clearing::clear;
use slices::space::zeroed;
use strings::table::StringTable;

// Prints a job whose inputs stand at `start`, behind the line that says what it asks for.
fn print_job(work: Work, job: &[u8], start: usize, text: &mut [u8]) -> usize
    requires { length job.now ≤ job_limit }
    ensures { Prints (printed_job job.now (read_work work job.now start)) text.old text.new result }
{
    let mut types = [[0u8; 8]; 256];
    let mut ops = [[0usize; 4]; 256];
    let mut bytes = zeroed::<u8, HEX_BYTES>(0);
    let mut ends = zeroed::<u32, MOST_STRINGS>(0);
    let read = match inputs_at(job, start, 2, &mut types, &mut ops, &mut bytes, &mut ends) {
        Ok(read) => read,
        Err(x) => return refused(text, x),
    };
    let inputs = Inputs {
        read,
        tables: Tables {
            text: job,
            types: &types,
            ops: &ops,
        },
        strings: StringTable {
            bytes: &bytes[0..read.size],
            ends: &ends[0..read.count],
        },
    };
    match work {
        Work::List => crate::list_job::print_list(inputs, text),
        Work::Assemble => crate::assemble_job::print_assembled(inputs, text),
        Work::Carry => crate::carry_job::print_carry(inputs, text),
    }
}

// Prints a job to the front of `text`, as much as fits, and counts all of it.
fn print(job: &[u8], text: &mut [u8]) -> usize
    ensures { Prints (printed job.now) text.old text.new result }
{
    if limits::JOB_LIMIT < job.len() {
        return refused(text, Refusal::TooLarge);
    }
    match which_job(job) {
        Some(Asked { work, start }) => print_job(work, job, start, text),
        None => refused(text, Refusal::Malformed(1)),
    }
}

// Writes what the program prints for a job to the front of `text`, and answers how many bytes that are; nothing where there is no room
// for them. The definition run_report gives each case its number and length.
pub fn run(job: &[u8], text: &mut [u8]) -> Option<usize>
    ensures { Ended (operation.run job.now) text.old [] text.new (run_report result) }
{
    let k = print(job, text);
    if text.len() < k {
        clear(text, 0);
        return None;
    }
    Some(k)
}
