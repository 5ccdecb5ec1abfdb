//! The examples of docs/BENCH.md: a grant of water, certified by three replicas of four.
use allotment::{Allotment, Operation};
use bench::Bench;
use life::{Call, Outcome, Turn, run_life};
use record::Record;
use refusal::{Ground, Refusal};
use registers::Table;

// Account 3 is granted 100.
const GRANT: Operation = Operation::Grant {
    account: 3,
    amount: 100,
};

// One call after the other. Replica 3 may be altered.
fn granted_by_calls(operation: u64, witnesses: &mut [u8]) -> Result<bool, Refusal> {
    let mut places = [Record::default(); 8];
    let mut table = Table::new(&mut places);
    let mut allotment = Allotment::new();
    let mut bench = Bench::open(1, 0b1000, &mut table, &mut allotment)?;
    bench.stamp(operation)?;
    for replica in 0..3 {
        bench.deliver(replica, 0)?;
    }
    bench.answer(witnesses, 0, 0, 0, 100)
}

// The same as a life: the turns have what came of each call.
fn granted_in_a_life(operation: u64) -> Result<[Option<Outcome>; 7], Refusal> {
    let mut places = [Record::default(); 8];
    let mut table = Table::new(&mut places);
    let mut allotment = Allotment::new();
    let mut turns = [
        Turn::from(Call::Stamp { operation }),
        Turn::from(Call::Deliver {
            replica: 0,
            slot: 0,
        }),
        Turn::from(Call::Deliver {
            replica: 1,
            slot: 0,
        }),
        Turn::from(Call::Deliver {
            replica: 3,
            slot: 0,
        }),
        Turn::from(Call::Answer {
            room: 16,
            view: 0,
            slot: 0,
            word: 0,
            value: 100,
        }),
        Turn::from(Call::Deliver {
            replica: 2,
            slot: 0,
        }),
        Turn::from(Call::Answer {
            room: 16,
            view: 0,
            slot: 0,
            word: 0,
            value: 100,
        }),
    ];
    run_life(1, 0b1000, &mut table, &mut allotment, &mut turns)?;
    Ok(turns.map(|turn| turn.outcome))
}

#[test]
fn a_grant_is_certified_by_calls_and_in_a_life(rt: HostRuntime) {
    let operation = u64::try_from(GRANT).unwrap_or(0);
    let mut witnesses = [9; 20];
    assert_eq!(rt; granted_by_calls(operation, &mut witnesses), Ok(true));
    assert_eq!(rt; &witnesses[..4], [0, 1, 2, 9].as_slice());
    let refused = Outcome::Refused(Refusal {
        ground: Ground::Honesty,
        place: 0,
    });
    let yes = Outcome::Yes([0, 1, 2, 0, 0, 0, 0, 0, 0, 0, 0, 0, 0, 0, 0, 0]);
    let granted = Outcome::Granted;
    let came = [
        granted,
        granted,
        granted,
        refused,
        Outcome::No,
        granted,
        yes,
    ];
    assert_eq!(rt; granted_in_a_life(operation), Ok(came.map(Some)));
}
