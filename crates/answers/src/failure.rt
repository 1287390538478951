// What an operation answers.
ghost use Rattle.std.specs.Prelude.{◌≡◌};
ghost use Rattle.answers.specs.declared.failure.Failure.TheVariants.{Refused};

use crate::refusal::Refusal;

// Why an operation has no result: it refuses, or the lent space is too short for the result.
#[derive(Clone, Copy, PartialEq, Eq, Debug)]
pub enum Failure {
    Refused(Refusal),
    Short,
}

// So `?` passes a refusal on.
impl From<Refusal> for Failure {
    ghost from_gives = { λ x r. r ≡ Refused x };

    fn from(x: Refusal) -> Failure {
        Failure::Refused(x)
    }
}

// The bytes or records that were written, or why there are none.
pub type Answer = Result<usize, Failure>;
