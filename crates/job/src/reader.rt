// The parts of a job, numbered by its lines: which job it is, inputs, the body, the text.
ghost use Rattle.std.specs.Prelude.{◌≡◌, ◌≤◌, length};
ghost use Rattle.limits.specs.Limits.{job_limit, job_string_limit};
ghost use Rattle.lists.specs.Text.{text};
ghost use Rattle.spec_sheet.specs.Scan.{literal_at};
ghost use Rattle.spec_job.specs.Job.{inputs_at, with_body};
ghost use Rattle.job.specs.ReaderAnswers.{asked, InputsIn, BodyIn, text_answer};

use answers::refusal::Refusal;
use sheet::tables::Tables;
use strings::table::StringTable;

// What a job asks for.
#[derive(Clone, Copy)]
pub(crate) enum Work {
    List,
    Assemble,
    Carry,
}

// What its first line says: what it asks for, and where the next line stands.
#[derive(Clone, Copy)]
pub(crate) struct Asked {
    pub work: Work,
    pub start: usize,
}

// None where the first line is none of a job.
pub(crate) fn which_job(s: &[u8]) -> Option<Asked>
    ensures { result ≡ asked s.now }
{
    if slices::compare::opens_at(s, 0, b"job=list\n") {
        return Some(Asked {
            work: Work::List,
            start: 9,
        });
    }
    if slices::compare::opens_at(s, 0, b"job=assemble\n") {
        return Some(Asked {
            work: Work::Assemble,
            start: 13,
        });
    }
    if slices::compare::opens_at(s, 0, b"job=carry\n") {
        return Some(Asked {
            work: Work::Carry,
            start: 10,
        });
    }
    None
}

// The most bytes that a job can write in hex: two digits make a byte.
pub(crate) const HEX_BYTES: usize = limits::JOB_LIMIT / 2;

// The most strings of a table, the bytes of output and the label entries that the program lends.
pub(crate) const MOST_STRINGS: usize = limits::JOB_STRING_LIMIT;

pub(crate) const MOST_OUTPUT: usize = limits::JOB_OUTPUT;

pub(crate) const MOST_LABELS: usize = limits::JOB_LABELS;

// Inputs that were read: the place behind them and the number of the line there, the largest opcode, how many strings
// there are and how many bytes these have.
#[derive(Clone, Copy)]
pub(crate) struct InputsRead {
    pub end: usize,
    pub line: usize,
    pub largest: usize,
    pub count: usize,
    pub size: usize,
}

// Inputs that were read, with the sheet's tables, whose names are parts of the job, and the string table.
#[derive(Clone, Copy)]
pub(crate) struct Inputs<'a> {
    pub read: InputsRead,
    pub tables: Tables<'a>,
    pub strings: StringTable<'a>,
}

// The inputs that stand at `at`, on the job's line `line`: the sheet's tables by opcode, then the strings. A malformed line is numbered
// in the job.
pub(crate) fn inputs_at(
    s: &[u8],
    at: usize,
    line: usize,
    types: &mut [[u8; 8]; 256],
    ops: &mut [[usize; 4]; 256],
    bytes: &mut [u8],
    ends: &mut [u32],
) -> Result<InputsRead, Refusal>
    requires { (length s.now ≤ job_limit) × (line ≤ job_limit) × (job_string_limit ≤ length ends.old) }
    ensures { InputsIn (inputs_at s.now at line) types.new ops.new bytes.new ends.new result }
{
    let sheet = match sheet::opcode::sheet_at(s, at, types, ops) {
        Ok(sheet) => sheet,
        Err(x) => {
            // A sheet is refused for nothing else.
            let Refusal::Malformed(k) = x else {
                return Err(x);
            };
            return Err(Refusal::Malformed(line + k - 1));
        }
    };
    let strings_line = line + 2 + sheet.count;
    let table = match crate::table::table_at(s, sheet.end, bytes, ends) {
        Ok(table) => table,
        Err(k) => return Err(Refusal::Malformed(strings_line + k)),
    };
    Ok(InputsRead {
        end: table.end,
        line: strings_line + 1 + table.count,
        largest: sheet.largest,
        count: table.count,
        size: table.size,
    })
}

// The body that stands at `at`, on the job's line `line`, with nothing behind it: how many bytes it has. They are kept where they fit.
pub(crate) fn body_at(s: &[u8], at: usize, line: usize, out: &mut [u8]) -> Result<usize, Refusal>
    requires { line ≤ job_limit }
    ensures { BodyIn (with_body s.now at line) out.new result }
{
    let body = crate::hex::keyed_hex_at(s, at, b"body=", out, 0).ok_or(Refusal::Malformed(line))?;
    if body.end == s.len() {
        return Ok(body.next);
    }
    Err(Refusal::Malformed(line + 1))
}

// Where the text starts whose line `text=` stands at `at`, on the job's line `line`: on the next line.
pub(crate) fn text_at(s: &[u8], at: usize, line: usize) -> Result<usize, Refusal>
    ensures { result ≡ text_answer (literal_at (text "text=\n") s.now at) line }
{
    sheet::scan::literal_at(s, at, b"text=\n").ok_or(Refusal::Malformed(line))
}
