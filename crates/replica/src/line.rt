//! The line: what a replica at work makes of it.
ghost use Rattle.std.specs.Prelude.{◌≡◌};
ghost use Rattle.replica.specs.Replicas.{delivered, committed, settled};

use crate::verdicts::{sealed_with, with_verdict};
use crate::{Replica, SLOTS, Verdict};

// Slot and verdict stay two arguments: the calls have them so.
impl Replica {
    /// Appends an operation to the line. A full line stays as it is.
    pub fn deliver(&mut self)
        ensures { self.new ≡ delivered self.old }
    {
        if usize::from(self.length) < SLOTS {
            self.length += 1;
        }
    }

    /// Seals a verdict that it said COMMIT of: the slot's sealed bit is set if it is a no-op.
    pub fn commit(&mut self, slot: u8, verdict: Verdict)
        ensures { self.new ≡ committed self.old slot verdict }
    {
        self.sealed = sealed_with(self.sealed, slot, verdict);
    }

    /// Puts a verdict into the line, one longer if the slot is its length, and seals it.
    pub fn settle(&mut self, slot: u8, verdict: Verdict)
        ensures { self.new ≡ settled self.old slot verdict }
    {
        if slot == self.length {
            self.deliver();
        }
        self.word = with_verdict(self.word, slot, verdict);
        self.commit(slot, verdict);
    }
}
