//! The answers of 64 bits, and the errors that they and the operations are made from.
ghost use Rattle.std.specs.Prelude.{◌≡◌, Some, codes};
ghost use Rattle.service.specs.declared.answer.Unanswered.TheVariants.{Malformed};
ghost use Rattle.service.specs.Answers.{answer_number, answer_of, figure_of, unanswered_text};

use std::error::Error;
use std::fmt;

// An answer is 64 bits, which replicas compare, so each error has a number among the answers.

/// The answer where an operation asks for what there is not: no curve holds the stage, or the
/// balance would leave its range.
pub const OUT_OF_RANGE: u64 = 0x8000_0000_0000_0000;

/// The answer where the 64 bits are no operation of the service.
pub const MALFORMED: u64 = 0x8000_0000_0000_0001;

/// Why an operation has no figure for its answer.
#[derive(Clone, Copy, Debug, PartialEq, Eq, Hash)]
pub enum Unanswered {
    /// The operation asks for what there is not.
    OutOfRange,
    /// The 64 bits are no operation of the service.
    Malformed,
}

/// The error where 64 bits stand for no operation of the service.
#[derive(Clone, Copy, Debug, PartialEq, Eq, Hash)]
pub struct UnknownOperation;

/// The error where no 64 bits stand for the operation.
#[derive(Clone, Copy, Debug, PartialEq, Eq, Hash)]
pub struct Unencodable;

// By hand: a derived text has no contract.

impl fmt::Display for Unanswered {
    ghost output = { λ why. Some (unanswered_text why) };

    fn fmt<W: fmt::Write>(&self, f: &mut fmt::Formatter<W>) -> fmt::Result {
        f.write_str(match self {
            Unanswered::OutOfRange => "the operation asks for what is out of range",
            Unanswered::Malformed => "the bits are no operation of the service",
        })
    }
}

impl fmt::Display for UnknownOperation {
    ghost output = { λ _. Some (codes "the bits stand for no operation") };

    fn fmt<W: fmt::Write>(&self, f: &mut fmt::Formatter<W>) -> fmt::Result {
        f.write_str("the bits stand for no operation")
    }
}

impl fmt::Display for Unencodable {
    ghost output = { λ _. Some (codes "no bits stand for the operation") };

    fn fmt<W: fmt::Write>(&self, f: &mut fmt::Formatter<W>) -> fmt::Result {
        f.write_str("no bits stand for the operation")
    }
}

impl Error for Unanswered {}

impl Error for UnknownOperation {}

impl Error for Unencodable {}

impl From<Unanswered> for u64 {
    ghost from_gives = { λ why n. n ≡ answer_number why };

    fn from(why: Unanswered) -> u64 {
        match why {
            Unanswered::OutOfRange => OUT_OF_RANGE,
            Unanswered::Malformed => MALFORMED,
        }
    }
}

impl From<UnknownOperation> for Unanswered {
    ghost from_gives = { λ _ why. why ≡ Malformed };

    fn from(_: UnknownOperation) -> Self {
        Self::Malformed
    }
}

/// The figure that an answer is, or why it is none.
pub fn figure(answer: u64) -> Result<u64, Unanswered>
    ensures value { result ≡ figure_of answer }
    ensures back { answer_of result ≡ answer }
{
    match answer {
        OUT_OF_RANGE => Err(Unanswered::OutOfRange),
        MALFORMED => Err(Unanswered::Malformed),
        figure => Ok(figure),
    }
}
