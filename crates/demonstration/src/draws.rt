//! A life of a bench over the allotment service: a grant and draws, in a register that fills up.
use crate::lives::{ROOM, run_and_print, turns};
use allotment::Allotment;
use life::{Call, Turn};
use record::{Kind, Record};
use replica::Verdict::{self, NoOp};
use service::OUT_OF_RANGE;
use tape::Tape;

// Kind 1 is GRANT and 2 is DRAW, with the account and the amount.
const GRANT_100: u64 = (1 << 62) + (3 << 58) + (100 << 26);

const DRAW_30: u64 = (2 << 62) + (3 << 58) + (30 << 26);

const DRAW_80: u64 = (2 << 62) + (3 << 58) + (80 << 26);

const DRAW_50: u64 = (2 << 62) + (3 << 58) + (50 << 26);

// A bit of the filling is set.
const MALFORMED: u64 = DRAW_30 + 1;

// What the foreign replica, number 0, says: that the balance is 100 still.
const FORGED_100: Record = Record {
    kind: Kind::Reply as u8,
    signer: 0,
    view: 0,
    last: 0,
    slot: 1,
    verdict: 0,
    word: 0,
    result: 100,
};

// The balance as it is.
const FORGED_70: Record = Record {
    result: 70,
    ..FORGED_100
};

const FORGED_20: Record = Record {
    slot: 3,
    result: 20,
    ..FORGED_100
};

// As leader, that the second draw is a no-op.
const DECISION: Record = Record {
    kind: Kind::Decision as u8,
    slot: 2,
    verdict: 1,
    result: 0,
    ..FORGED_100
};

const TURNS: [Turn<'static>; 35] = turns! {
    Stamp { operation: GRANT_100 }
    Stamp { operation: DRAW_30 }
    Stamp { operation: DRAW_80 }
    Deliver { replica: 1, slot: 0 }
    Deliver { replica: 2, slot: 0 }
    Deliver { replica: 3, slot: 0 }
    Deliver { replica: 1, slot: 1 }
    Deliver { replica: 2, slot: 1 }
    Forge { statement: FORGED_100 }
    Answer { room: ROOM, view: 0, slot: 1, word: 0, value: 70 }
    Forge { statement: FORGED_70 }
    Answer { room: ROOM, view: 0, slot: 1, word: 0, value: 70 }
    Answer { room: ROOM, view: 0, slot: 1, word: 0, value: 100 }
    Deliver { replica: 3, slot: 1 }
    Deliver { replica: 1, slot: 2 }
    Deliver { replica: 2, slot: 2 }
    Deliver { replica: 3, slot: 2 }
    Answer { room: ROOM, view: 0, slot: 2, word: 0, value: OUT_OF_RANGE }

    Forge { statement: DECISION }
    Prepare { replica: 1, slot: 2, verdict: NoOp }
    Decide { replica: 1, slot: 2, verdict: Verdict::Operation }

    Stamp { operation: DRAW_50 }
    Deliver { replica: 1, slot: 3 }
    Deliver { replica: 2, slot: 3 }
    Deliver { replica: 2, slot: 4 }
    Stamp { operation: MALFORMED }
    Deliver { replica: 1, slot: 4 }
    Leave { replica: 1, target: 1 }
    Reply { replica: 1, slot: 1 }
    Deliver { replica: 3, slot: 3 }
    Forge { statement: FORGED_20 }
    Reply { replica: 2, slot: 3 }
    Answer { room: ROOM, view: 0, slot: 3, word: 0, value: 20 }
    Answer { room: ROOM, view: 0, slot: 1, word: 0, value: 70 }
    Answer { room: ROOM, view: 0, slot: 1, word: 0, value: 100 }
};

// Each with the number of the step before which it stands.
const HEADINGS: [(u64, &str); 3] = [
    (1, "Delivery, with forged answers"),
    (19, "A foreign leader"),
    (22, "The register fills up"),
];

/// Runs the life over a tape of 330 bytes, which are 16 places and ten bytes left over, and prints
/// it.
pub fn run(rt: &HostRuntime) -> anyhow::Result<()> {
    println!(rt;
        "Draws: a life over the allotment service and a tape of 16 places; replica 0 is foreign"
    )?;
    let mut bytes = [0; 330];
    let mut register = Tape::new(&mut bytes);
    let mut service = Allotment::new();
    let mut turns = TURNS;
    run_and_print(rt, 1, &mut register, &mut service, &mut turns, &HEADINGS)
}
