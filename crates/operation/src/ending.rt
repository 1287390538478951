// How an operation ends that wrote a result: it is measured, 18, then 19.
ghost use Rattle.std.specs.Prelude.{◌≡◌, length};
ghost use Rattle.operation.specs.Ends.{measured_of, left_by};

use answers::failure::{Answer, Failure};
use answers::refusal::Refusal;
use slices::clearing::clear;

// What a result of k bytes that needs `needed` label entries answers, where `room` bytes are lent. Nothing is cleared.
#[tactic(auto, using(std::proofs::lemmas::Bool::Decides::nat_tests), unfolding(crate::specs::Ends::measured_of))]
pub fn fitting(k: usize, limit: usize, needed: usize, lent: usize, room: usize) -> Answer
    ensures { result ≡ measured_of k limit needed lent room }
{
    if limit < k {
        return Err(Failure::Refused(Refusal::TooLarge));
    }
    if lent < needed {
        return Err(Failure::Short);
    }
    if room < k {
        return Err(Failure::Short);
    }
    Ok(k)
}

// Measures a result of k bytes in `out` that needs `needed` label entries. What does not fit is cleared.
pub fn measure(k: usize, limit: usize, needed: usize, lent: usize, out: &mut [u8]) -> Answer
    ensures value { result ≡ measured_of k limit needed lent (length out.old) }
    ensures out_after { out.new ≡ left_by result out.old }
{
    let answer = fitting(k, limit, needed, lent, out.len());
    settle(answer, out);
    answer
}

// Clears the output of an operation that has no result.
pub fn settle(answer: Answer, out: &mut [u8])
    ensures { out.new ≡ left_by answer out.old }
{
    if answer.is_err() {
        clear(out, 0);
    }
}
