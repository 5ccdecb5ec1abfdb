//! Running a life for C.
ghost use Rattle.std.specs.Prelude.{◌≡◌, length};
ghost use Rattle.bench.specs.States.{service_of};
ghost use Rattle.fotsgari_c.specs.Lives.{lent, Turns, Comes, Answers};

use crate::call::{Call, turns_of};
use crate::fault::Fault;
use crate::outcome::{Outcome, tell};
use crate::status::{Status, status_of};
use life::{Turn, run_life};
use record::Record;
use refusal::Refusal;
use service::Service;
use std::alloc::Global;
use tape::Tape;

// Runs the turns, and tells what came of them. If the open is refused, nothing is written.
fn run_turns<S: Service>(
    f: u64,
    foreign: u64,
    service: &mut S,
    tape: &mut [u8],
    turns: &mut [Turn<'_>],
    outcomes: &mut [Outcome],
    status: &mut Status,
) -> Result<(), Refusal>
    requires { length outcomes.old ≡ length turns.old }
    ensures { Turns (record { f = f; mask = foreign }) (service_of S.Service service.old) turns.old
        (lent tape.old outcomes.old status.old) result
        (lent tape.new outcomes.new status.new) }
{
    let mut register = Tape::new(tape);
    let kept = run_life(f, foreign, &mut register, service, turns)?;
    tell(turns, outcomes);
    *status = status_of(&kept);
    Ok(())
}

// Runs a life with the service, unless there is a fault: then nothing is written.
fn run_or_fault<S: Service>(
    alloc: Global,
    f: u64,
    foreign: u64,
    service: &mut S,
    tape: &mut [u8],
    calls: &[Call],
    records: &[Record],
    outcomes: &mut [Outcome],
    status: &mut Status,
) -> Result<(), Fault>
    ensures { Comes (record { f = f; mask = foreign }) (service_of S.Service service.old)
        calls.now records.now (lent tape.old outcomes.old status.old) result
        (lent tape.new outcomes.new status.new) }
{
    if outcomes.len() != calls.len() {
        return Err(Fault::Outcomes);
    }
    let mut turns = turns_of(alloc, calls, records)?;
    run_turns(f, foreign, service, tape, &mut turns, outcomes, status)?;
    Ok(())
}

// Runs a life with the service, and answers 0, or the number of a fault.
pub(crate) fn run<S: Service>(
    alloc: Global,
    f: u64,
    foreign: u64,
    service: &mut S,
    tape: &mut [u8],
    calls: &[Call],
    records: &[Record],
    outcomes: &mut [Outcome],
    status: &mut Status,
) -> u8
    ensures { Answers (record { f = f; mask = foreign }) (service_of S.Service service.old)
        calls.now records.now (lent tape.old outcomes.old status.old) result
        (lent tape.new outcomes.new status.new) }
{
    match run_or_fault(
        alloc, f, foreign, service, tape, calls, records, outcomes, status,
    ) {
        Ok(()) => 0,
        Err(fault) => fault.into(),
    }
}
