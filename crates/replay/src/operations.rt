// The operations by number: each has its function of the desk called on the parts of a case.
ghost use Rattle.std.specs.Prelude.{◌≡◌};
ghost use Rattle.replay.specs.Words.{numbers_over};
ghost use Rattle.replay.specs.Performs.{done, decoded_into, decoded, encoded, ran, performed};

use crate::Stop;
use crate::assembling::assemble;
use crate::lent::{bytes_of, words_of};
use crate::parts::{perform_part, written};
use answers::report::Numbers;
use slices::part::part_of;
use slices::space::zeroed;
use slices::write::put_bytes;

// Has the desk do an operation on lent bytes.
pub fn perform(operation: u64, sheet: &[u8], input: &[u8], lent: &mut [u8]) -> Result<Numbers, Stop>
    ensures { done result lent.new ≡ performed operation sheet.now input.now lent.old }
{
    match operation {
        1 => decode(sheet, input, lent),
        2 => encode(sheet, input, lent),
        13 => assemble(sheet, input, lent),
        14 => run(input, lent),
        _ => perform_part(operation, input, lent),
    }
}

// The most words of an operation, and of bytes that a job prints.
const MOST_WORDS: usize = 8192;

const MOST_TEXT: usize = 131078;

// Decodes into words that start as the lent bytes and are written back to them.
fn decode_words(
    sheet: &[u8],
    body: &[u8],
    lent: &mut [u8],
    words: &mut [u64],
) -> Result<Numbers, Stop>
    ensures { done result lent.new ≡ decoded_into sheet.now body.now lent.old (numbers_over 8 lent.old words.old) }
{
    words_of(lent, words);
    let a = desk_host::desk_decode(sheet, body, words);
    bytes_of(words, lent);
    Ok(a)
}

// Decodes into as many words as the lent bytes make.
fn decode(sheet: &[u8], body: &[u8], lent: &mut [u8]) -> Result<Numbers, Stop>
    ensures { done result lent.new ≡ decoded sheet.now body.now lent.old }
{
    let n = lent.len() / 8;
    if MOST_WORDS < n {
        return Err(Stop::Broken);
    }
    let mut words = zeroed::<u64, MOST_WORDS>(0);
    decode_words(sheet, body, lent, &mut words[0..n])
}

// Encodes the records whose words the input holds.
fn encode(sheet: &[u8], input: &[u8], out: &mut [u8]) -> Result<Numbers, Stop>
    ensures { done result out.new ≡ encoded sheet.now input.now out.old }
{
    if input.len() % 8 != 0 {
        return Err(Stop::Broken);
    }
    let n = input.len() / 8;
    if MOST_WORDS < n {
        return Err(Stop::Broken);
    }
    let mut words = zeroed::<u64, MOST_WORDS>(0);
    words_of(input, &mut words);
    Ok(desk_host::desk_encode(sheet, &words[0..n], out))
}

// Runs a job, and copies what it prints.
fn run(job: &[u8], out: &mut [u8]) -> Result<Numbers, Stop>
    ensures { done result out.new ≡ ran job.now out.old }
{
    let mut text = zeroed::<u8, MOST_TEXT>(0);
    let k = job::run::run(job, &mut text).ok_or(Stop::Broken)?;
    Ok(written(put_bytes(out, 0, part_of(&text, 0, k))))
}
