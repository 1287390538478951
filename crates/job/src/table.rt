// A job's string table: `strings=N` and N lines `s=..`.
ghost use Rattle.std.specs.Prelude.{[], ◌≤◌, length};
ghost use Rattle.limits.specs.Limits.{job_limit, job_string_limit};
ghost use Rattle.lists.specs.Text.{text};
ghost use Rattle.spec_job.specs.Table.{keyed_hex_at, strings_from, table_at};
ghost use Rattle.job.specs.HexAnswers.{Lined};
ghost use Rattle.job.specs.TableAnswers.{Tabled};

use crate::hex::HexRead;

// A table that was read: the place behind it, how many strings it has and how many bytes.
#[derive(Clone, Copy)]
pub(crate) struct TableRead {
    pub end: usize,
    pub count: usize,
    pub size: usize,
}

// The bytes of the string at `at`.
fn string_at(s: &[u8], at: usize, bytes: &mut [u8], from: usize) -> Option<HexRead>
    ensures { Lined (keyed_hex_at (text "s=") s.now at) bytes.old «from» bytes.new result }
{
    crate::hex::keyed_hex_at(s, at, b"s=", bytes, from)
}

// Reads `count` lines of strings, or answers how many lines of the table were in order. A string's end is where the next one's bytes
// go.
fn strings_from(
    s: &[u8],
    start: usize,
    count: usize,
    bytes: &mut [u8],
    ends: &mut [u32],
) -> Result<TableRead, usize>
    requires { (length s.now ≤ job_limit) × (count ≤ length ends.old) }
    ensures { Tabled (strings_from count s.now start [] []) bytes.new ends.new result }
{
    let mut at = start;
    let mut size = 0;
    for i in 0..count {
        let string = string_at(s, at, bytes, size).ok_or(i + 1)?;
        ends[i] = string.next as u32;
        at = string.end;
        size = string.next;
    }
    Ok(TableRead {
        end: at,
        count,
        size,
    })
}

// The table that stands at `at`, or how many of its lines were in order. Its bytes are kept where they fit.
pub(crate) fn table_at(
    s: &[u8],
    at: usize,
    bytes: &mut [u8],
    ends: &mut [u32],
) -> Result<TableRead, usize>
    requires { (length s.now ≤ job_limit) × (job_string_limit ≤ length ends.old) }
    ensures { Tabled (table_at s.now at) bytes.new ends.new result }
{
    let count = sheet::scan::keyed_at(s, at, b"strings=", limits::JOB_STRING_LIMIT as u64, b"\n");
    let read = count.ok_or(0usize)?;
    strings_from(s, read.next, read.value as usize, bytes, ends)
}
