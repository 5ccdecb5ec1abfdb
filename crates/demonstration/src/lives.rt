//! Runs a life of a bench, and prints it.
use crate::line::print_line;
use crate::members::F;
use crate::replicas::print_replicas;
use crate::steps::print_turns;
use crate::words::InWords;
use life::{Turn, run_life};
use record::SIGNERS;
use register::Register;
use service::Service;

/// The room of every witness buffer here.
pub const ROOM: u64 = SIGNERS as u64;

// An array of turns that are still to come, one for each call that is written.
macro_rules! turns {
    ($($call:ident { $($field:ident: $value:expr),* })*) => {
        [$(Turn { call: Call::$call { $($field: $value),* }, outcome: None }),*]
    };
}

pub(crate) use turns;

// The replica whose line is printed.
const SHOWN: usize = 1;

/// Runs the turns on a bench, and prints each step under its heading, and at the end the line of a
/// replica and all replicas.
pub fn run_and_print<R: Register, S: Service + InWords>(
    rt: &HostRuntime,
    foreign: u64,
    register: &mut R,
    service: &mut S,
    turns: &mut [Turn<'_>],
    headings: &[(u64, &str)],
) -> anyhow::Result<()> {
    let status = run_life(F.into(), foreign, register, service, turns)?;
    let operations = status.operations();
    println!(rt; "  step 0: open with f {F} and the foreign mask {foreign}: granted")?;
    print_turns::<S>(rt, operations, turns, headings)?;
    println!(rt; "  The line of replica {SHOWN}:")?;
    let shown = status.replicas()[SHOWN];
    let line = (shown.length, shown.word);
    print_line(rt, &*register, service, operations, line)?;
    print_replicas(rt, foreign, status.replicas())
}
