//! Records and tapes as they run: one record of each kind, records that break one rule each, and
//! tapes of a wrong length.
use record::{Kind, Reader, Record};
use refusal::{Ground, Refusal};
use std::test::Fail;

// A record of a kind by replica 12, in a view and about a slot, every other field 0.
fn about(kind: Kind, view: u8, slot: u8) -> Record {
    Record {
        kind: kind.into(),
        signer: 12,
        view,
        slot,
        ..Record::default()
    }
}

// Written out, so that the tests do not lean on the conversions.
fn layout(place: u64) -> Refusal {
    Refusal {
        ground: Ground::Layout,
        place,
    }
}

// One record of each kind, in the order of their numbers.
fn one_of_each_kind() -> [Record; 9] {
    [
        Record {
            word: 0x7fff_ffff_ffff_ffff,
            result: u64::MAX,
            ..about(Kind::Reply, 63, 63)
        },
        about(Kind::Find, 0, 63),
        about(Kind::Drop, 1, 0),
        Record {
            verdict: 1,
            ..about(Kind::Decision, 2, 5)
        },
        about(Kind::Prepare, 2, 5),
        Record {
            verdict: 1,
            ..about(Kind::Commit, 2, 5)
        },
        Record {
            last: 62,
            word: u64::MAX,
            ..about(Kind::ViewChange, 63, 64)
        },
        Record {
            word: 1 << 63,
            ..about(Kind::ViewStart, 1, 64)
        },
        about(Kind::Entry, 1, 0),
    ]
}

#[test]
fn each_kind_comes_back(rt: HostRuntime) -> Result<(), Fail> {
    let records = one_of_each_kind();
    for (number, r) in (1..10u8).zip(&records) {
        let bytes = r.pack()?;
        assert_eq!(rt; bytes[0] / 16, number, "the kinds are 1 to 9 in this order");
        assert_eq!(rt; Record::unpack(&bytes)?, *r);
    }
    Ok(())
}

// Records that break one rule each.
fn broken() -> [Record; 12] {
    let reply = about(Kind::Reply, 0, 0);
    [
        Record { kind: 0, ..reply },
        Record {
            kind: 10,
            ..about(Kind::Reply, 1, 0)
        },
        about(Kind::Reply, 64, 0),
        about(Kind::Reply, 0, 64),
        Record {
            word: 8,
            ..about(Kind::Reply, 0, 3)
        },
        Record {
            result: 1,
            ..about(Kind::Find, 0, 0)
        },
        Record {
            verdict: 1,
            ..about(Kind::Drop, 0, 0)
        },
        Record {
            verdict: 2,
            ..about(Kind::Commit, 0, 0)
        },
        Record {
            last: 1,
            ..about(Kind::ViewChange, 1, 0)
        },
        about(Kind::ViewStart, 0, 0),
        Record {
            last: 1,
            ..about(Kind::Entry, 1, 0)
        },
        about(Kind::Entry, 1, 65),
    ]
}

#[test]
fn each_broken_rule_is_refused(rt: HostRuntime) {
    for r in broken() {
        assert_eq!(rt; r.pack(), Err(layout(0)));
    }
}

#[test]
fn tapes_are_read_by_position(rt: HostRuntime) -> Result<(), Fail> {
    let short = Refusal {
        ground: Ground::BufferLength,
        place: 0,
    };
    assert!(rt; matches!(Reader::new(&[]), Err(e) if e == short));
    assert!(rt; matches!(Reader::new(&[0x12; 39]), Err(e) if e == short));
    for (place, part) in (0..3).zip(Reader::new(&[0; 60])?) {
        assert_eq!(rt; part.record(), Err(layout(place)));
    }
    assert_eq!(rt; Reader::new(&[0; 60])?.count(), 3);
    Ok(())
}
