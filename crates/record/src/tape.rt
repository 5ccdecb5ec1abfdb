ghost use Rattle.std.specs.Prelude.{◌≡◌, ◌-◌};
ghost use Rattle.record.specs.Packed.{Unpacks};
ghost use Rattle.record.specs.Tapes.{places};
ghost use Rattle.record.specs.Reads.{IsPart, Begins, Reads};
ghost use Rattle.std.specs.Iterator.{at_most};
ghost use Rattle.std.specs.Simd.{first_chunks};

use crate::pack::unpack_at;
use crate::{Record, SIZE};
use refusal::{Ground, Refusal};

/// The part of a tape that holds one record, and its position, counted from 0.
#[derive(Clone, Copy)]
pub struct Part<'a> {
    pub position: u64,
    pub bytes: &'a [u8; SIZE],
}

impl Part<'_> {
    /// The record of this part. A part to which no record packs is refused with its position.
    pub fn record(&self) -> Result<Record, Refusal>
        ensures { Unpacks self.now.position self.now.bytes.now result }
    {
        unpack_at(self.bytes, self.position)
    }
}

// The parts of 20 bytes that a tape is cut into. What is too short for one at its end is none.
fn parts(tape: &[u8]) -> &[[u8; SIZE]]
    ensures { result.now ≡ first_chunks 20 (places tape.now) tape.now }
{
    tape.as_chunks::<SIZE>().0
}

/// The 20 bytes at a position of a tape, if there are so many. What is too short for a record at
/// the end of the tape has no position.
pub fn part_at(tape: &[u8], position: usize) -> Option<&[u8; SIZE]>
    ensures { IsPart tape.now position result }
{
    parts(tape).get(position)
}

/// Hands out the parts of a tape in turn.
#[derive(Drop)]
pub struct Reader<'a> {
    tape: &'a [u8],
    // A cursor: chunks with their index would be two iterators in one to say the same.
    position: usize,
}

impl<'a> Reader<'a> {
    /// A reader at the start of the tape. A tape that is empty, or no whole number of records, is
    /// refused.
    pub fn new(tape: &'a [u8]) -> Result<Reader<'a>, Refusal>
        ensures { Begins tape.now result }
    {
        if tape.is_empty() || tape.len() % SIZE != 0 {
            return Err(Ground::BufferLength.into());
        }
        Ok(Reader { tape, position: 0 })
    }
}

impl<'a> Iterator for Reader<'a> {
    type Item = Part<'a>;

    ghost next_gives = { Reads };

    ghost remaining = { λ s. at_most (places s.tape.now - s.position) };

    fn next(&mut self) -> Option<Part<'a>> {
        let position = self.position;
        let bytes = part_at(self.tape, position)?;
        self.position = position + 1;
        Some(Part {
            position: position as u64,
            bytes,
        })
    }
}
