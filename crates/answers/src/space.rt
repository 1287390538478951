// The space that an operation needs, told before the work (document 02 (b)).
ghost use Rattle.std.specs.Prelude.{◌≡◌};
ghost use Rattle.answers.specs.Space.{space_numbers_of, space_report_of};

use crate::refusal::Refusal;
use crate::report::Numbers;

// How much a result needs: bytes of output, or records of 20 words, and label entries.
#[derive(Clone, Copy, PartialEq, Eq, Debug)]
pub struct Need {
    pub bytes: usize,
    pub records: usize,
    pub labels: usize,
}

// What an operation needs, or why it is refused whatever is lent.
pub type SpaceAnswer = Result<Need, Refusal>;

// Number, place and operand of a refusal and no figures, or three zeros and the figures.
#[repr(C)]
#[derive(Clone, Copy, PartialEq, Eq, Debug)]
pub struct SpaceNumbers {
    pub number: u64,
    pub place: u64,
    pub operand: u64,
    pub bytes: u64,
    pub records: u64,
    pub labels: u64,
}

impl From<SpaceAnswer> for SpaceNumbers {
    ghost from_gives = { λ x r. r ≡ space_numbers_of (space_report_of x) };

    #[tactic(auto, unfolding(crate::specs::Space::space_report_of))]
    fn from(x: SpaceAnswer) -> SpaceNumbers {
        match x {
            Ok(need) => SpaceNumbers {
                number: 0,
                place: 0,
                operand: 0,
                bytes: need.bytes as u64,
                records: need.records as u64,
                labels: need.labels as u64,
            },
            Err(refusal) => {
                let r = Numbers::from(refusal);
                SpaceNumbers {
                    number: r.number,
                    place: r.place,
                    operand: r.operand,
                    bytes: 0,
                    records: 0,
                    labels: 0,
                }
            }
        }
    }
}
