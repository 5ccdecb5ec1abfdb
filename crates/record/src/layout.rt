ghost use Rattle.std.specs.Prelude.{◌≡◌, ◌^◌, Decides, nat_lt};
ghost use Rattle.record.specs.Layout.{Layout, keeps_layout};

use crate::{Kind, Record};

// The layout is one match over ranges of kinds, and a range ends in constants.
const REPLY: u8 = Kind::Reply as u8;

const FIND: u8 = Kind::Find as u8;

const DROP: u8 = Kind::Drop as u8;

const DECISION: u8 = Kind::Decision as u8;

const COMMIT: u8 = Kind::Commit as u8;

const VIEW_CHANGE: u8 = Kind::ViewChange as u8;

const VIEW_START: u8 = Kind::ViewStart as u8;

const ENTRY: u8 = Kind::Entry as u8;

impl Record {
    /// Whether the record keeps the layout.
    pub fn keeps_layout(&self) -> bool
        ensures value { result ≡ keeps_layout self.now }
        ensures meaning { Decides result (Layout self.now) }
    {
        passes(self)
    }
}

/// Whether the word has no bit at or above the slot.
pub fn ends_below(word: u64, slot: u8) -> bool
    ensures { result ≡ nat_lt word (2 ^ slot) }
{
    slot >= 64 || word < 1u64 << slot
}

// Whether `r` keeps the layout.
#[tactic(auto, unfolding(crate::specs::Layout::keeps_layout))]
fn passes(r: &Record) -> bool
    ensures { result ≡ keeps_layout r.now }
{
    let Record {
        kind,
        signer,
        view,
        last,
        slot,
        verdict,
        word,
        result,
    } = *r;
    signer < 16
        && view < 64
        && match kind {
            REPLY if slot <= 63 && ends_below(word, slot) => last == 0 && verdict == 0,
            FIND..=DROP if slot <= 63 && word == 0 => last == 0 && verdict == 0 && result == 0,
            DECISION..=COMMIT if slot <= 63 && word == 0 => last == 0
                && verdict <= 1
                && result == 0,
            VIEW_CHANGE if slot <= 64 && last < view && ends_below(word, slot) => {
                verdict == 0 && result == 0
            }
            VIEW_START..=ENTRY if slot <= 64 && view >= 1 && ends_below(word, slot) => {
                last == 0 && verdict == 0 && result == 0
            }
            _ => false,
        }
}
