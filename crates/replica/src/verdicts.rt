//! Verdicts: their numbers, and what they make of a word.
// Slot and verdict stay two arguments: the calls have them so.
ghost use Rattle.std.specs.Prelude.{◌≡◌};
ghost use Rattle.replica.specs.Verdicts.{verdict_number, other_verdict, with_verdict, sealed_with};

use crate::Verdict;
use crate::word::{with_bit, without_bit};

/// The verdict's number in a statement: 0 for operation, 1 for no-op.
impl From<Verdict> for u8 {
    ghost from_gives = { λ d n. n ≡ verdict_number d };

    fn from(verdict: Verdict) -> u8 {
        verdict as u8
    }
}

impl Verdict {
    /// The other verdict.
    pub fn other(self) -> Verdict
        ensures { result ≡ other_verdict self }
    {
        match self {
            Verdict::Operation => Verdict::NoOp,
            Verdict::NoOp => Verdict::Operation,
        }
    }
}

// The word of a line with the verdict at the slot.
pub(crate) fn with_verdict(word: u64, slot: u8, verdict: Verdict) -> u64
    ensures { result ≡ with_verdict word slot verdict }
{
    match verdict {
        Verdict::Operation => without_bit(word, slot),
        Verdict::NoOp => with_bit(word, slot),
    }
}

// The sealed word after the verdict on the slot: only a no-op is sealed.
pub(crate) fn sealed_with(sealed: u64, slot: u8, verdict: Verdict) -> u64
    ensures { result ≡ sealed_with sealed slot verdict }
{
    match verdict {
        Verdict::Operation => sealed,
        Verdict::NoOp => with_bit(sealed, slot),
    }
}
