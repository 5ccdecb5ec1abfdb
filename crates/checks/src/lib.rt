//! The worked checks: examples with stated figures, proved of the definitions that the contracts
//! of records, services and merges cite, and run.
#![tactic(auto)]

ghost use Rattle.std.specs.Prelude.{◌≡◌};
ghost use Rattle.merge.specs.Merges.{merge};
ghost use Rattle.checks.specs.Examples.{flows_after, three_picks};
ghost use Rattle.checks.specs.Worked.{WorkedChecks, worked_run};

mod counting;

use allotment::Allotment;
pub use counting::Counting;
use merge::merge;
use rating::Rating;
use record::Record;
use service::Service;

// The bits of operations by their layout: so the examples do not lean on the conversions to bits.
const LOAD_LOW: u64 = (1 << 62) + (2000 << 31) + 3;

const LOAD_HIGH: u64 = (1 << 62) + (1 << 59) + (2000 << 45) + (5000 << 31) + (6200 << 11) + 5;

const READ_2000: u64 = (2 << 62) + (2000 << 48);

const READ_2001: u64 = (2 << 62) + (2001 << 48);

const READ_5001: u64 = (2 << 62) + (5001 << 48);

const GRANT_100: u64 = (1 << 62) + (100 << 26);

const DRAW_100: u64 = (2 << 62) + (100 << 26);

const DRAW_1: u64 = (2 << 62) + (1 << 26);

// The flows at 2000, 2001 and 5001 millimetres after two loads.
fn flows(first: u64, second: u64) -> [u64; 3]
    ensures { result ≡ flows_after first second }
{
    let mut rating = Rating::new();
    let _ = rating.apply(first);
    let _ = rating.apply(second);
    [
        rating.apply(READ_2000),
        rating.apply(READ_2001),
        rating.apply(READ_5001),
    ]
}

// The line that three picks for view 1 merge to over the base 0 and 0: those of the replicas 0, 1
// and 2, with these reaches and words.
fn merged(a: (u8, u64), b: (u8, u64), c: (u8, u64)) -> (u8, u64)
    ensures { result ≡ merge (0, 0) (three_picks a b c) }
{
    let picks = [
        Record::view_change_by(0, 1, 0, a.0, a.1),
        Record::view_change_by(1, 1, 0, b.0, b.1),
        Record::view_change_by(2, 1, 0, c.0, c.1),
    ];
    merge(&picks, (0, 0))
}

// The flows with the high curve loaded last, the flows with the low curve loaded last, and the
// answers to a grant of 100, a draw of 100 and a draw of 1; and the lines of two merges.
fn run() -> ([[u64; 3]; 3], [(u8, u64); 2])
    ensures { result ≡ worked_run }
{
    let mut allotment = Allotment::new();
    let answers = [
        allotment.apply(GRANT_100),
        allotment.apply(DRAW_100),
        allotment.apply(DRAW_1),
    ];
    let figures = [
        flows(LOAD_LOW, LOAD_HIGH),
        flows(LOAD_HIGH, LOAD_LOW),
        answers,
    ];
    let lines = [
        merged((0, 0), (0, 0), (1, 0)),
        merged((2, 2), (1, 0), (0, 0)),
    ];
    (figures, lines)
}

/// The worked checks hold. Runs the examples of the services: the flows at 2000, 2001 and 5001
/// millimetres with the high curve loaded last, the same with the low curve loaded last, and the
/// answers to a grant of 100, a draw of 100 and a draw of 1. Runs two merges too, and answers their
/// lines.
pub fn worked_checks() -> ([[u64; 3]; 3], [(u8, u64); 2])
    ensures table { WorkedChecks }
    ensures run { result ≡ worked_run }
{
    run()
}

#[cfg(test)]
mod bench_tests;
#[cfg(test)]
mod counting_tests;
#[cfg(test)]
mod open_tests;
#[cfg(test)]
mod register_tests;
#[cfg(test)]
mod tests;
