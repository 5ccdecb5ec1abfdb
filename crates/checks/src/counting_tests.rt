//! A life over a register that counts its calls comes to what it comes to over the register below.
use crate::Counting;
use allotment::Allotment;
use life::{Call, Outcome, Turn, run_life};
use record::Record;
use refusal::Refusal;
use register::Register;
use registers::Table;

// A DRAW of 1 from account 0 is stamped and delivered by three of four replicas, and asked for.
fn outcomes<R: Register>(register: &mut R) -> Result<[Option<Outcome>; 5], Refusal> {
    let mut allotment = Allotment::new();
    let deliver = |replica| Call::Deliver { replica, slot: 0 };
    let mut turns = [
        Turn::from(Call::Stamp {
            operation: (2 << 62) + (1 << 26),
        }),
        Turn::from(deliver(0)),
        Turn::from(deliver(1)),
        Turn::from(deliver(2)),
        Turn::from(Call::Answer {
            room: 16,
            view: 0,
            slot: 0,
            word: 0,
            value: 1 << 63,
        }),
    ];
    run_life(1, 0b1000, register, &mut allotment, &mut turns)?;
    Ok(turns.map(|turn| turn.outcome))
}

#[test]
fn a_life_over_a_counting_register(rt: HostRuntime) {
    let mut places = [Record::default(); 3];
    let mut counting = Counting::new(Table::new(&mut places));
    let counted = outcomes(&mut counting);
    assert_eq!(rt; counting.times_entered(), 3);
    assert!(rt; counting.times_asked() >= 3);
    let granted = Outcome::Granted;
    let yes = Outcome::Yes([0, 1, 2, 0, 0, 0, 0, 0, 0, 0, 0, 0, 0, 0, 0, 0]);
    assert_eq!(rt;
        counted,
        Ok([granted, granted, granted, granted, yes].map(Some))
    );
    let mut others = [Record::default(); 3];
    assert_eq!(rt; outcomes(&mut Table::new(&mut others)), counted);
}
