//! With which f and which foreign masks a bench opens.
use allotment::Allotment;
use bench::Bench;
use record::{Kind, Record};
use refusal::{Ground, Refusal};
use register::Register;
use registers::Table;

// Written out, so that the tests do not lean on the conversions.
fn at_0(ground: Ground) -> Option<Refusal> {
    Some(Refusal { ground, place: 0 })
}

// Why an open is refused, if it is.
fn refused_open(
    f: u64,
    foreign: u64,
    table: &mut Table<'_>,
    allotment: &mut Allotment,
) -> Option<Refusal> {
    match Bench::open(f, foreign, table, allotment) {
        Ok(_) => None,
        Err(unopened) => Some(unopened.refusal),
    }
}

#[test]
fn benches_open_over_an_empty_register(rt: HostRuntime) {
    let said = Record {
        kind: Kind::Drop.into(),
        ..Record::default()
    };
    let mut places = [said; 2];
    let mut table = Table::new(&mut places);
    let mut allotment = Allotment::new();
    let cases = [
        (0, 0, at_0(Ground::FaultBound)),
        (6, 0, at_0(Ground::FaultBound)),
        (5, 0, None),
        (1, 3, at_0(Ground::ForeignMask)),
        (1, 16, at_0(Ground::ForeignMask)),
        (1, 8, None),
    ];
    for (f, foreign, refused) in cases {
        assert_eq!(rt;
            refused_open(f, foreign, &mut table, &mut allotment),
            refused,
            "f {f}, foreign {foreign}"
        );
    }
    assert_eq!(rt; table.enter(&said), Ok(()));
    assert_eq!(rt;
        refused_open(1, 8, &mut table, &mut allotment),
        at_0(Ground::RegisterNotEmpty)
    );
}
