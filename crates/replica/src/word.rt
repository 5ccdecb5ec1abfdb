//! Words: one bit for each slot.
// Any number is allowed for a slot, so each function asks whether there is such a slot.
ghost use Rattle.std.specs.Prelude.{◌≡◌};
ghost use Rattle.replica.specs.Words.{bit, with_bit, without_bit, one_past};

use crate::SLOTS;

/// Whether the word's bit for the slot is set: never where there is no such slot.
#[tactic(auto, unfolding(crate::specs::Words::bit), using(crate::proofs::Words::none_above))]
pub fn bit(word: u64, slot: u8) -> bool
    ensures { result ≡ bit word slot }
{
    usize::from(slot) < SLOTS && (word >> slot) % 2 == 1
}

// The word with the slot's bit set: as it is where there is no such slot.
#[tactic(auto, unfolding(crate::specs::Words::with_bit))]
pub(crate) fn with_bit(word: u64, slot: u8) -> u64
    ensures { result ≡ with_bit word slot }
{
    if usize::from(slot) < SLOTS {
        word | 1 << slot
    } else {
        word
    }
}

// The word with the slot's bit cleared.
#[tactic(auto, using(crate::proofs::Words::without_mask, crate::proofs::Words::without_above))]
pub(crate) fn without_bit(word: u64, slot: u8) -> u64
    ensures { result ≡ without_bit word slot }
{
    if usize::from(slot) < SLOTS {
        word & !(1 << slot)
    } else {
        word
    }
}

// One past the word's highest bit that is set: 0 where none is.
#[tactic(auto, unfolding(crate::specs::Words::one_past))]
pub(crate) fn one_past(word: u64) -> u8
    ensures { result ≡ one_past word }
{
    (u64::BITS - word.leading_zeros()) as u8
}
