//! A line in words, with what is certified along it.
ghost use Rattle.std.specs.Prelude.{◌≡◌, ◌%◌, ◌^◌};

use crate::members::MEMBERS;
use crate::words::{InWords, print_answer};
use record::Record;
use register::Register;
use replica::{Verdict, bit};
use service::Service;

// The last view.
const LAST_VIEW: u8 = 63;

// The no-ops of a word below a slot.
fn below(word: u64, slot: u8) -> u64
    ensures { result ≡ word % 2 ^ slot }
{
    match 1u64.checked_shl(slot.into()) {
        Some(bit) => word % bit,
        None => word,
    }
}

// The first view in which a quorum said the statement, whichever view it has itself.
fn first_view<R: Register>(register: &R, statement: &Record) -> Option<u8> {
    (0..=LAST_VIEW).find(|&view| MEMBERS.reached(register, &Record { view, ..*statement }))
}

// Prints whether a quorum said the statement in some view, to the end of the line.
fn print_certified<R: Register>(
    rt: &HostRuntime,
    register: &R,
    statement: &Record,
) -> anyhow::Result<()> {
    match first_view(register, statement) {
        Some(view) => println!(rt; ", certified in view {view}")?,
        None => println!(rt; ", not certified")?,
    }
    Ok(())
}

// Prints a slot of a line: its operation, its verdict, and what is certified of it. The service has
// been fed the operations below the slot, but for the no-ops of the line.
fn print_slot<R: Register, S: Service + InWords>(
    rt: &HostRuntime,
    register: &R,
    service: &mut S,
    operation: u64,
    word: u64,
    slot: u8,
) -> anyhow::Result<()> {
    print!(rt; "    slot {slot}: ")?;
    S::print_operation(rt, operation)?;
    if bit(word, slot) {
        print!(rt; ": no-op")?;
        let commit = Record::commit_by(0, 0, slot, Verdict::NoOp.into());
        return print_certified(rt, register, &commit);
    }
    let answer = service.apply(operation);
    print!(rt; ": operation, answer ")?;
    print_answer::<S>(rt, operation, answer)?;
    let reply = Record::reply_by(0, 0, slot, below(word, slot), answer);
    print_certified(rt, register, &reply)
}

/// Prints a line slot by slot. The service is cleared and takes the slots along the line; whether
/// the answer that it gives for a slot is certified is asked of the register.
pub fn print_line<R: Register, S: Service + InWords>(
    rt: &HostRuntime,
    register: &R,
    service: &mut S,
    operations: &[u64],
    (length, word): (u8, u64),
) -> anyhow::Result<()> {
    service.clear();
    for (slot, &operation) in (0..length).zip(operations) {
        print_slot(rt, register, service, operation, word, slot)?;
    }
    Ok(())
}
