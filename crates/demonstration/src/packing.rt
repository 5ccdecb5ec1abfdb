//! A statement as 20 bytes, and a tape of two of them.
use crate::answers::answer_of;
use crate::statement::print_statement;
use record::{Part, Reader, SIZE};

// The length of a tape of two records.
const TAPE: usize = 2 * SIZE;

// No Display: one line of this program's output.
fn print_bytes(rt: &HostRuntime, bytes: &[u8; SIZE]) -> anyhow::Result<()> {
    print!(rt; "  packed:")?;
    for byte in bytes {
        print!(rt; " {byte:02x}")?;
    }
    println!(rt; "")?;
    Ok(())
}

// No Display: one line of this program's output.
fn print_part(rt: &HostRuntime, part: Part) -> anyhow::Result<()> {
    let position = part.position;
    print!(rt; "  position {position}: ")?;
    match part.record() {
        Ok(record) => {
            print_statement(rt, &record)?;
            println!(rt; "")?
        }
        Err(refusal) => println!(rt; "{refusal}, since no record has these bytes")?,
    }
    Ok(())
}

// The bytes, and once more with the lowest bit of the fourth turned.
fn tape_of(bytes: &[u8; SIZE]) -> [u8; TAPE] {
    let mut tape = [0; TAPE];
    tape[..SIZE].copy_from_slice(bytes);
    tape[SIZE..].copy_from_slice(bytes);
    tape[SIZE + 3] ^= 1;
    tape
}

/// Packs the statement that a replica answered `answer`, and reads it back from a tape, on which
/// the same bytes follow with a filling bit set.
pub fn pack_and_read(rt: &HostRuntime, answer: u64) -> anyhow::Result<()> {
    println!(rt;
        "Statement: replica 2 answers {answer} l/s for slot 4 of view 1, and slot 3 is a no-op"
    )?;
    let bytes = answer_of(2, answer).pack()?;
    print_bytes(rt, &bytes)?;
    println!(rt; "Tape: these 20 bytes, then the same with a filling bit set in the fourth byte")?;
    let tape = tape_of(&bytes);
    for part in Reader::new(&tape)? {
        print_part(rt, part)?;
    }
    Ok(())
}
