//! One text for every register: the same is done with a table, a tape and a spare sheet.
use quorum::{Membership, count};
use record::{Kind, Record};
use refusal::{Ground, Refusal};
use register::Register;
use registers::{SpareSheet, Table};
use std::process::Abort;
use std::test::Fail;
use tape::Tape;

// The statement of a signer about a slot in view 0.
fn statement(kind: Kind, signer: u8, slot: u8) -> Record {
    Record {
        kind: kind.into(),
        signer,
        slot,
        ..Record::default()
    }
}

// Written out, so that the tests do not lean on the conversions.
fn at_0(ground: Ground) -> Refusal {
    Refusal { ground, place: 0 }
}

// Enters one statement twice into an empty register, and one that breaks the layout.
fn enters_once<R: Register>(rt: &impl Abort, register: &mut R, said: &Record, broken: &Record) {
    assert!(rt; register.is_empty());
    assert!(rt; !register.ask(said));
    assert_eq!(rt; register.enter(broken), Err(at_0(Ground::Layout)));
    assert!(rt; !register.ask(broken));
    assert!(rt; register.is_empty());
    assert_eq!(rt; register.enter(said), Ok(()));
    assert_eq!(rt; register.enter(said), Ok(()));
    assert!(rt; register.ask(said));
}

// Enters statements of the slots from 0 on into a register with room for just so many.
fn fills<R: Register>(rt: &impl Abort, register: &mut R, slots: u8) {
    for slot in 0..slots {
        let dropped = statement(Kind::Drop, 2, slot);
        assert!(rt; !register.ask(&dropped));
        assert_eq!(rt; register.enter(&dropped), Ok(()));
        assert!(rt; register.ask(&dropped));
    }
}

// Uses a register with room for `slots` statements and one more.
fn run<R: Register>(rt: &impl Abort, register: &mut R, slots: u8) {
    let said = statement(Kind::Reply, 2, 1);
    let unsaid = statement(Kind::Reply, 3, 1);
    let broken = Record { kind: 0, ..said };
    enters_once(rt, register, &said, &broken);
    assert!(rt; !register.ask(&unsaid));
    fills(rt, register, slots);
    assert_eq!(rt; register.enter(&unsaid), Err(at_0(Ground::RegisterFull)));
    assert!(rt; !register.ask(&unsaid));
    assert_eq!(rt; register.enter(&said), Ok(()));
    assert_eq!(rt; register.enter(&statement(Kind::Drop, 2, 0)), Ok(()));
    assert_eq!(rt; register.enter(&broken), Err(at_0(Ground::Layout)));
    assert!(rt; !register.is_empty());
}

#[test]
fn every_register_answers_alike(rt: HostRuntime) {
    let junk = statement(Kind::Reply, 3, 1);
    run(&rt, &mut Table::new(&mut [junk; 18]), 17);
    run(&rt, &mut Tape::new(&mut [0xff; 379]), 17);
    run(&rt, &mut SpareSheet::new(Table::new(&mut [junk; 2])), 17);
    run(&rt, &mut SpareSheet::new(Tape::new(&mut [0; 59])), 17);
    run(
        &rt,
        &mut SpareSheet::new(SpareSheet::new(Table::new(&mut []))),
        31,
    );
}

#[test]
fn one_place_of_the_callers_memory_changes(rt: HostRuntime) -> Result<(), Fail> {
    let said = statement(Kind::Reply, 2, 1);
    let junk = Record {
        signer: 9,
        slot: 9,
        ..Record::default()
    };
    let mut places = [junk; 2];
    assert_eq!(rt; Table::new(&mut places).enter(&said), Ok(()));
    assert_eq!(rt; places, [said, junk]);
    let mut bytes = [0xff; 59];
    assert_eq!(rt; Tape::new(&mut bytes).enter(&said), Ok(()));
    assert_eq!(rt; &bytes[..20], &said.pack()?[..]);
    assert_eq!(rt; &bytes[20..], &[0xff; 39][..]);
    Ok(())
}

#[test]
fn quorums_are_of_replicas_below_n(rt: HostRuntime) {
    let mut places = [statement(Kind::Drop, 0, 0); 4];
    let mut table = Table::new(&mut places);
    for signer in [3, 0, 9, 2] {
        assert_eq!(rt; table.enter(&statement(Kind::Reply, signer, 1)), Ok(()));
    }
    let said = statement(Kind::Reply, 1, 1);
    assert_eq!(rt; count(&table, &said, 4), 3);
    assert_eq!(rt; count(&table, &said, 255), 4);
    let members = |replicas, quorum| Membership { replicas, quorum };
    assert!(rt; members(4, 3).reached(&table, &said));
    assert!(rt; !members(3, 3).reached(&table, &said));
    assert!(rt; members(4, 4).witnesses(&table, &said).is_none());
    match members(4, 3).witnesses(&table, &said) {
        Some(found) => {
            for signer in &found[..3] {
                assert!(rt; table.ask(&statement(Kind::Reply, *signer, 1)));
                assert!(rt; *signer < 4);
            }
            assert!(rt; found[0] != found[1] && found[1] != found[2] && found[2] != found[0]);
        }
        None => assert!(rt; false),
    }
}
