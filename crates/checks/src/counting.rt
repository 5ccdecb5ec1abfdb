//! A register that counts its calls, over any register.
ghost use Rattle.std.specs.Prelude.{◌≡◌};

use record::Record;
use refusal::Refusal;
use register::Register;
use std::cell::Cell;

/// A register that counts how often it was asked and entered into, over a register below, whose
/// set, free places and memory are its own. So it is not the value that it was after a call that
/// adds nothing, and it is a register all the same: what is proved of every register is proved of
/// it.
#[derive(Drop)]
pub struct Counting<R> {
    below: R,
    // Asking borrows a register by a shared reference.
    asked: Cell<u64>,
    entered: u64,
}

impl<R: Register> Counting<R> {
    /// Lays the counters, at 0, over a register.
    pub fn new(below: R) -> Counting<R>
        ensures { result.below ≡ below }
    {
        Counting {
            below,
            asked: Cell::new(0),
            entered: 0,
        }
    }

    /// How often it was asked, whether about a record or whether it is empty.
    pub fn times_asked(&self) -> u64 {
        self.asked.get()
    }

    /// How often a record was entered, also where it was refused.
    pub fn times_entered(&self) -> u64
        ensures { result ≡ self.now.entered }
    {
        self.entered
    }

    // One more question.
    fn count_asked(&self) {
        self.asked.set(self.asked.get().saturating_add(1));
    }
}

impl<R: Register> Register for Counting<R> {
    ghost held = { λ c. R.held c.below };

    ghost free = { λ c. R.free c.below };

    ghost Memory = { R.Memory };

    ghost memory = { λ c. R.memory c.below };

    ghost stores = { R.stores };

    fn ask(&self, r: &Record) -> bool {
        self.count_asked();
        self.below.ask(r)
    }

    fn is_empty(&self) -> bool {
        self.count_asked();
        self.below.is_empty()
    }

    fn enter(&mut self, r: &Record) -> Result<(), Refusal> {
        self.entered = self.entered.saturating_add(1);
        self.below.enter(r)
    }
}
