// Decoding a body, and a function of an area, under a sheet given as text.
ghost use Rattle.std.specs.Prelude.{[]};
ghost use Rattle.spec_body.specs.Decode.{decode_body};
ghost use Rattle.spec_body.specs.Operation as operation;
ghost use Rattle.spec_body.specs.Operation.{decode_outcome};
ghost use Rattle.answers.specs.Answers.{answer_report};
ghost use Rattle.answers.specs.Outcome.{Ended};
ghost use Rattle.operation.specs.Ends.{left_by};

use crate::body::decode_body;
use answers::failure::{Answer, Failure};
use answers::refusal::Refusal;
use operation::area::Area;
use sheet::opcode::read_sheet;
use slices::clearing::clear_words;
use slices::part::part_of;

// Decodes a body under a sheet's table of type codes. The caller clears what a failure leaves.
fn decode_under(types: &[[u8; 8]; 256], last: usize, s: &[u8], out: &mut [u64]) -> Answer
    ensures { Ended (decode_outcome (decode_body types.now last s.now)) out.old [] (left_by result out.new) (answer_report result) }
{
    let n = decode_body(types, last, s, out)?;
    if out.len() / 20 < n {
        return Err(Failure::Short);
    }
    Ok(n)
}

// Decodes a body under a sheet given as text.
pub fn decode(sheet: &[u8], body: &[u8], out: &mut [u64]) -> Answer
    ensures { Ended (operation.decode sheet.now body.now) out.old [] out.new (answer_report result) }
{
    let answer = decode_body_of(sheet, body, out);
    if answer.is_err() {
        clear_words(out);
    }
    answer
}

// The same, but what a failure leaves is not cleared.
fn decode_body_of(sheet: &[u8], body: &[u8], out: &mut [u64]) -> Answer
    ensures { Ended (operation.decode sheet.now body.now) out.old [] (left_by result out.new) (answer_report result) }
{
    if limits::BODY_LIMIT < body.len() {
        return Err(Failure::Refused(Refusal::TooLarge));
    }
    let mut types = [[0u8; 8]; 256];
    let mut ops = [[0usize; 4]; 256];
    let read = read_sheet(sheet, &mut types, &mut ops)?;
    decode_under(&types, read.largest, body, out)
}

// Decodes one function of an area.
pub fn decode_function(sheet: &[u8], area: Area<'_>, id: usize, out: &mut [u64]) -> Answer
    ensures { Ended (operation.decode_function sheet.now area.entry.functions.now area.entry.bytes.now area.entry.base id) out.old [] out.new (answer_report result) }
{
    let answer = decode_function_of(sheet, area, id, out);
    if answer.is_err() {
        clear_words(out);
    }
    answer
}

// The same, but what a failure leaves is not cleared.
fn decode_function_of(sheet: &[u8], area: Area<'_>, id: usize, out: &mut [u64]) -> Answer
    ensures { Ended (operation.decode_function sheet.now area.entry.functions.now area.entry.bytes.now area.entry.base id) out.old [] (left_by result out.new) (answer_report result) }
{
    let mut types = [[0u8; 8]; 256];
    let mut ops = [[0usize; 4]; 256];
    let read = read_sheet(sheet, &mut types, &mut ops)?;
    let f = area.locate(id)?;
    decode_under(
        &types,
        read.largest,
        part_of(area.bytes, f.start, f.size),
        out,
    )
}
