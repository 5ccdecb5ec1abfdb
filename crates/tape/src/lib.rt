//! A register over bytes that the caller lends.
#![tactic(auto)]

ghost use Rattle.std.specs.Prelude.{◌≡◌, ◌≤◌};
ghost use Rattle.record.specs.Tapes.{places};
ghost use Rattle.register.specs.Sets.{nothing};

mod parts;

use crate::parts::{has, holds_nothing, write_part};
use record::{Record, SIZE};
use refusal::{Ground, Refusal};
use register::Register;

/// A register over bytes that the caller lends: records are packed into it end to end. A new
/// statement goes to the lowest free place, and nothing else of the caller's memory changes.
#[derive(Drop)]
pub struct Tape<'a> {
    // A type of its own beside a table: one of both would have to carry how a place is read and
    // written. What the caller lends is written in place, so its length stands beside it.
    bytes: &'a mut [u8],
    // How many records are packed into it.
    used: usize,
    ghost fits: { used ≤ places bytes.now },
}

impl<'a> Tape<'a> {
    ghost use Rattle.tape.specs.Tapes.{used_parts, tape_held, tape_free};

    /// An empty register over these bytes, whatever they hold. There is a free place for each
    /// whole record that fits; what is left over at the end is never written.
    pub fn new(bytes: &'a mut [u8]) -> Tape<'a>
        ensures held { tape_held result ≡ nothing }
        ensures free { tape_free result ≡ places bytes.old }
        ensures used { result.used ≡ 0 }
        ensures bytes { result.bytes.now ≡ bytes.old }
        ensures lent { result.bytes.ghost_name ≡ bytes.entry.ghost_name }
    {
        Tape { bytes, used: 0 }
    }

    // The used places.
    fn parts(&self) -> &[[u8; SIZE]]
        ensures { result.now ≡ used_parts self.now.used self.now.bytes.now }
    {
        let (parts, _) = self.bytes.as_chunks::<SIZE>();
        &parts[..self.used]
    }
}

impl<'a> Register for Tape<'a> {
    ghost use Rattle.tape.specs.Tapes.{TapeMemory, tape_held, tape_free, tape_memory, tape_stores};

    ghost held = { tape_held };

    ghost free = { tape_free };

    ghost Memory = { TapeMemory };

    ghost memory = { tape_memory };

    ghost stores = { tape_stores };

    fn ask(&self, r: &Record) -> bool {
        let Ok(bytes) = r.pack() else {
            return false;
        };
        has(self.parts(), &bytes)
    }

    fn is_empty(&self) -> bool {
        holds_nothing(self.parts())
    }

    fn enter(&mut self, r: &Record) -> Result<(), Refusal> {
        // The steps of a table's enter, but packing checks the layout, and places are bytes.
        let part = r.pack()?;
        if has(self.parts(), &part) {
            return Ok(());
        }
        if self.used == self.bytes.len() / SIZE {
            return Err(Ground::RegisterFull.into());
        }
        write_part(self.bytes, self.used, &part);
        self.used += 1;
        Ok(())
    }
}
