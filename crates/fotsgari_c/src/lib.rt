//! Lives of a bench for C: an export for each service, over a tape of the caller's bytes.
#![tactic(auto)]

ghost use Rattle.fotsgari_c.specs.Lives.{lent, Answers, rating, allotment};

mod call;
mod fault;
mod outcome;
mod run;
mod status;

use crate::run::run;
use allotment::Allotment;
pub use call::Call;
pub use outcome::Outcome;
use rating::Rating;
use record::Record;
pub use status::{Replica, Status};
use std::alloc::Global;

/// Runs a life of a bench with the rating service, over an empty register on the tape, and tells
/// what came of it. The answer is 0, or the number of a fault: then nothing is written.
#[unsafe(no_mangle)]
pub extern "C" fn fotsgari_run_rating(
    alloc: Global,
    f: u64,
    foreign: u64,
    tape: &mut [u8],
    calls: &[Call],
    records: &[Record],
    outcomes: &mut [Outcome],
    status: &mut Status,
) -> u8
    ensures { Answers (record { f = f; mask = foreign }) rating calls.now records.now
        (lent tape.old outcomes.old status.old) result
        (lent tape.new outcomes.new status.new) }
{
    run(
        alloc,
        f,
        foreign,
        &mut Rating::new(),
        tape,
        calls,
        records,
        outcomes,
        status,
    )
}

/// Runs a life of a bench with the allotment service, over an empty register on the tape, and tells
/// what came of it. The answer is 0, or the number of a fault: then nothing is written.
#[unsafe(no_mangle)]
pub extern "C" fn fotsgari_run_allotment(
    alloc: Global,
    f: u64,
    foreign: u64,
    tape: &mut [u8],
    calls: &[Call],
    records: &[Record],
    outcomes: &mut [Outcome],
    status: &mut Status,
) -> u8
    ensures { Answers (record { f = f; mask = foreign }) allotment calls.now records.now
        (lent tape.old outcomes.old status.old) result
        (lent tape.new outcomes.new status.new) }
{
    run(
        alloc,
        f,
        foreign,
        &mut Allotment::new(),
        tape,
        calls,
        records,
        outcomes,
        status,
    )
}
