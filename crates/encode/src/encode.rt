// Records of 20 words encoded under a sheet, `encode_function_body` of encode.rs. One pass writes what fits and counts all of
// it, so that the lent space is compared with the length needed only after nothing else has refused.
ghost use Rattle.std.specs.Prelude.{[], ◌≤◌};
ghost use Rattle.spec_body.specs.Encode.{encode_records};
ghost use Rattle.spec_body.specs.Operation as operation;
ghost use Rattle.spec_body.specs.Operation.{encode_outcome};
ghost use Rattle.answers.specs.Outcome.{Ended};
ghost use Rattle.answers.specs.Answers.{answer_report};
ghost use Rattle.operation.specs.Ends.{left_by};
ghost use Rattle.encode.specs.Encoding.{Encoding};

use answers::failure::Answer;
use answers::refusal::Refusal;
use operation::ending::{measure, settle};

// Writes all records: how many bytes they have, or the first refusal.
fn encode_records(
    types: &[[u8; 8]; 256],
    last: usize,
    words: &[u64],
    out: &mut [u8],
) -> Result<usize, Refusal>
    requires { last ≤ 255 }
    ensures { Encoding (encode_records types.now last words.now) out.old out.new result }
{
    let codes = crate::canonical::code_table();
    let counts = crate::canonical::canonical_counts(types, last);
    let n = words.len() / 20;
    let mut k: usize = 0;
    for i in 0..n {
        k = crate::record::encode_record(
            &codes,
            &counts,
            types,
            last,
            words,
            i,
            n - i - 1,
            out,
            k,
        )?;
    }
    if words.len() % 20 != 0 {
        return Err(Refusal::BadRecord(n));
    }
    Ok(k)
}

// The records under the tables of a sheet, with their length and the lent space looked at last. The output is left to settle.
fn encode_under(types: &[[u8; 8]; 256], last: usize, words: &[u64], out: &mut [u8]) -> Answer
    requires { last ≤ 255 }
    ensures { Ended (encode_outcome (encode_records types.now last words.now)) out.old [] (left_by result out.new) (answer_report result) }
{
    let n = encode_records(types, last, words, out)?;
    measure(n, limits::BODY_LIMIT, 0, 0, out)
}

// The same under the sheet that a text holds.
fn encode_text(sheet: &[u8], words: &[u64], out: &mut [u8]) -> Answer
    ensures { Ended (operation.encode sheet.now words.now) out.old [] (left_by result out.new) (answer_report result) }
{
    let mut types = [[0u8; 8]; 256];
    let mut ops = [[0usize; 4]; 256];
    let read = sheet::opcode::read_sheet(sheet, &mut types, &mut ops)?;
    encode_under(&types, read.largest, words, out)
}

// Encodes records of 20 words under the sheet that a text holds.
pub fn encode(sheet: &[u8], words: &[u64], out: &mut [u8]) -> Answer
    ensures { Ended (operation.encode sheet.now words.now) out.old [] out.new (answer_report result) }
{
    let answer = encode_text(sheet, words, out);
    settle(answer, out);
    answer
}
