// An answer as four numbers.
ghost use Rattle.std.specs.Prelude.{◌≡◌};
ghost use Rattle.answers.specs.Report.{refusal};
ghost use Rattle.answers.specs.Refusals.{fault_number, refusal_report};
ghost use Rattle.answers.specs.Answers.{answer_report};
ghost use Rattle.answers.specs.Numbers.{numbers_of};

use crate::failure::{Answer, Failure};
use crate::refusal::{OperandFault, Refusal};

// Number, place and operand of a refusal, or three zeros and the length.
#[repr(C)]
#[derive(Clone, Copy, PartialEq, Eq, Debug)]
pub struct Numbers {
    pub number: u64,
    pub place: u64,
    pub operand: u64,
    pub length: u64,
}

fn refused(number: u64, place: usize, operand: usize) -> Numbers
    ensures { result ≡ numbers_of (refusal number place operand) }
{
    Numbers {
        number,
        place: place as u64,
        operand: operand as u64,
        length: 0,
    }
}

impl From<OperandFault> for u64 {
    ghost from_gives = { λ x r. r ≡ fault_number x };

    #[tactic(auto, unfolding(crate::specs::Refusals::fault_number))]
    fn from(x: OperandFault) -> u64 {
        match x {
            OperandFault::Register => 6,
            OperandFault::Address => 7,
            OperandFault::Distance => 8,
            OperandFault::Quotes => 9,
            OperandFault::Text => 10,
            OperandFault::Number => 11,
            OperandFault::Double => 12,
            OperandFault::Misfit => 15,
            OperandFault::NotCarried => 16,
        }
    }
}

impl From<Refusal> for Numbers {
    ghost from_gives = { λ x r. r ≡ numbers_of (refusal_report x) };

    #[tactic(auto, unfolding(crate::specs::Refusals::refusal_report))]
    fn from(x: Refusal) -> Numbers {
        match x {
            Refusal::Malformed(line) => refused(1, line, 0),
            Refusal::BadByte(line) => refused(2, line, 0),
            Refusal::LongLine(place) => refused(3, place, 0),
            Refusal::UnknownName(place) => refused(4, place, 0),
            Refusal::OperandCount(place) => refused(5, place, 0),
            Refusal::BadOperand(fault, place, operand) => {
                refused(u64::from(fault), place, operand)
            }
            Refusal::Beyond(place) => refused(13, place, 0),
            Refusal::Cut(place) => refused(14, place, 0),
            Refusal::BadRecord(index) => refused(15, index, 0),
            Refusal::BadString(id) => refused(17, id, 0),
            Refusal::TooLarge => refused(18, 0, 0),
            Refusal::NoFunction(id) => refused(20, id, 0),
        }
    }
}

impl From<Answer> for Numbers {
    ghost from_gives = { λ x r. r ≡ numbers_of (answer_report x) };

    fn from(x: Answer) -> Numbers {
        match x {
            Ok(n) => Numbers {
                number: 0,
                place: 0,
                operand: 0,
                length: n as u64,
            },
            Err(Failure::Refused(refusal)) => Numbers::from(refusal),
            Err(Failure::Short) => refused(19, 0, 0),
        }
    }
}
