//! The errors that no other part of this program comes to.
use rating::{Operation, Rating};
use record::Kind;
use service::{Service, figure};

// READ is kind 2. One bit of its filling is set.
const FILLED: u64 = (2 << 62) + (2000 << 48) + 1;

/// Prints the errors of bits, of an operation and of a number that have no meaning.
pub fn print_errors(rt: &HostRuntime) -> anyhow::Result<()> {
    println!(rt; "Errors: what has no meaning")?;
    if let Err(why) = figure(Rating::new().apply(FILLED)) {
        println!(rt; "  {FILLED:016x}, applied: {why}")?;
    }
    if let Err(why) = u64::try_from(Operation::Read(16384)) {
        println!(rt; "  READ 16384 mm, in bits: {why}")?;
    }
    if let Err(why) = Kind::try_from(10) {
        println!(rt; "  10, as a kind: {why}")?;
    }
    Ok(())
}
