//! A life of a bench over the rating service: readings at two metres, two gaps and two changes of
//! view.
use crate::lives::{ROOM, run_and_print, turns};
use life::{Call, Turn};
use rating::Rating;
use record::{Kind, Record};
use registers::{SpareSheet, Table};
use replica::Verdict::{self, NoOp};

// LOAD is kind 1, with the curve's number, low, high, offset and slope. READ is kind 2, with a
// stage.
const LOAD_LOW: u64 = (1 << 62) + (2000 << 31) + 3;

const LOAD_HIGH: u64 = (1 << 62) + (1 << 59) + (2000 << 45) + (5000 << 31) + (6200 << 11) + 5;

const READ_2000: u64 = (2 << 62) + (2000 << 48);

const READ_2001: u64 = (2 << 62) + (2001 << 48);

// A bit of the filling is set.
const MALFORMED: u64 = READ_2000 + 1;

// What the foreign replica, number 2, says: that the flow at two metres is 6000.
const FORGED_6000: Record = Record {
    kind: Kind::Reply as u8,
    signer: 2,
    view: 0,
    last: 0,
    slot: 2,
    verdict: 0,
    word: 0,
    result: 6000,
};

// The same for slot 4, which would be true if slot 3 were an operation.
const FORGED_6000_FOR_4: Record = Record {
    slot: 4,
    ..FORGED_6000
};

// The same under the number of an honest replica.
const FORGED_FOR_3: Record = Record {
    signer: 3,
    ..FORGED_6000
};

// The word has the bit of its own slot, which breaks the layout.
const OFF_LAYOUT: Record = Record {
    word: 4,
    ..FORGED_6000
};

const FORGED_DROP: Record = Record {
    kind: Kind::Drop as u8,
    slot: 3,
    result: 0,
    ..FORGED_6000
};

// What the honest replicas say as they leave for view 1.
const TO_1_BY_0: Record = Record {
    kind: Kind::ViewChange as u8,
    signer: 0,
    view: 1,
    last: 0,
    slot: 4,
    verdict: 0,
    word: 8,
    result: 0,
};

const TO_1_BY_1: Record = Record {
    signer: 1,
    ..TO_1_BY_0
};

const TO_1_BY_3: Record = Record {
    signer: 3,
    slot: 5,
    ..TO_1_BY_0
};

// The foreign replica's, with a no-op at slot 2, which no quorum prepared.
const FORGED_WORD_12: Record = Record {
    signer: 2,
    word: 12,
    ..TO_1_BY_0
};

// The foreign replica's, without the no-op at slot 3.
const FORGED_WORD_0: Record = Record {
    signer: 2,
    slot: 0,
    word: 0,
    ..TO_1_BY_0
};

// The foreign replica is ready to enter view 1 with another line.
const FORGED_ENTRY: Record = Record {
    kind: Kind::Entry as u8,
    signer: 2,
    slot: 5,
    word: 12,
    ..TO_1_BY_0
};

// What they say as they leave view 1 for view 63: replica 0 committed the no-op at slot 6.
const TO_63_BY_0: Record = Record {
    view: 63,
    last: 1,
    slot: 7,
    word: 64,
    ..TO_1_BY_0
};

const TO_63_BY_1: Record = Record {
    signer: 1,
    slot: 6,
    word: 0,
    ..TO_63_BY_0
};

const TO_63_BY_3: Record = Record {
    signer: 3,
    ..TO_63_BY_1
};

// One has a no-op that no quorum prepared.
const PICKS_1_UNPREPARED: [Record; 3] = [TO_1_BY_0, TO_1_BY_1, FORGED_WORD_12];

const PICKS_1: [Record; 3] = [TO_1_BY_0, TO_1_BY_1, TO_1_BY_3];

const PICKS_1_WITH_FORGED: [Record; 3] = [TO_1_BY_3, FORGED_WORD_0, TO_1_BY_1];

const PICKS_63: [Record; 3] = [TO_63_BY_0, TO_63_BY_1, TO_63_BY_3];

// View 63 is the last, and replica 3 leads it. The foreign replica would have led view 2.
const TURNS: [Turn<'static>; 108] = turns! {
    Stamp { operation: LOAD_LOW }
    Stamp { operation: LOAD_HIGH }
    Stamp { operation: READ_2000 }
    Deliver { replica: 0, slot: 0 }
    Deliver { replica: 0, slot: 1 }
    Deliver { replica: 0, slot: 2 }
    Deliver { replica: 1, slot: 0 }
    Deliver { replica: 1, slot: 1 }
    Deliver { replica: 1, slot: 2 }
    Answer { room: ROOM, view: 0, slot: 2, word: 0, value: 6200 }
    Forge { statement: FORGED_6000 }
    Forge { statement: FORGED_FOR_3 }
    Forge { statement: OFF_LAYOUT }
    Deliver { replica: 2, slot: 0 }
    Deliver { replica: 3, slot: 1 }
    Deliver { replica: 3, slot: 0 }
    Deliver { replica: 3, slot: 1 }
    Deliver { replica: 3, slot: 2 }
    Answer { room: ROOM, view: 0, slot: 2, word: 0, value: 6200 }
    Answer { room: ROOM, view: 0, slot: 2, word: 0, value: 6000 }

    Stamp { operation: LOAD_LOW }
    Stamp { operation: READ_2000 }
    Deliver { replica: 3, slot: 3 }
    Deliver { replica: 3, slot: 4 }
    Drop { replica: 1 }
    Find { replica: 1 }
    Find { replica: 0 }
    Drop { replica: 0 }
    Drop { replica: 1 }
    Deliver { replica: 1, slot: 3 }
    Decide { replica: 0, slot: 3, verdict: NoOp }
    Forge { statement: FORGED_DROP }
    Decide { replica: 0, slot: 3, verdict: NoOp }
    Decide { replica: 0, slot: 3, verdict: Verdict::Operation }
    Prepare { replica: 0, slot: 3, verdict: NoOp }
    Prepare { replica: 1, slot: 3, verdict: NoOp }
    Commit { replica: 1, slot: 3, verdict: NoOp }
    Prepare { replica: 3, slot: 3, verdict: NoOp }
    Commit { replica: 0, slot: 3, verdict: NoOp }
    Commit { replica: 1, slot: 3, verdict: NoOp }
    NoOp { room: ROOM, view: 0, slot: 3 }
    Commit { replica: 3, slot: 3, verdict: NoOp }
    NoOp { room: ROOM, view: 0, slot: 3 }
    Settle { replica: 0, slot: 3, verdict: NoOp }
    Settle { replica: 1, slot: 3, verdict: NoOp }
    Settle { replica: 3, slot: 3, verdict: NoOp }
    Reply { replica: 3, slot: 3 }
    Forge { statement: FORGED_6000_FOR_4 }
    Answer { room: ROOM, view: 0, slot: 4, word: 0, value: 6000 }

    Leave { replica: 0, target: 1 }
    Deliver { replica: 0, slot: 4 }
    Lead { replica: 1, picks: &PICKS_1, base_length: 0, base_word: 0 }
    Leave { replica: 1, target: 1 }
    Leave { replica: 3, target: 1 }
    Forge { statement: FORGED_WORD_12 }
    Lead { replica: 1, picks: &PICKS_1_UNPREPARED, base_length: 0, base_word: 0 }
    Lead { replica: 0, picks: &PICKS_1, base_length: 0, base_word: 0 }
    Start { replica: 0, picks: &PICKS_1, base_length: 0, base_word: 0 }
    Lead { replica: 1, picks: &PICKS_1, base_length: 0, base_word: 0 }
    Forge { statement: FORGED_WORD_0 }
    Start { replica: 0, picks: &PICKS_1, base_length: 0, base_word: 0 }
    Start { replica: 1, picks: &PICKS_1, base_length: 0, base_word: 0 }
    Start { replica: 1, picks: &PICKS_1_WITH_FORGED, base_length: 0, base_word: 0 }
    Forge { statement: FORGED_ENTRY }
    Enter { replica: 0, length: 5, word: 8, view: 1 }
    Start { replica: 3, picks: &PICKS_1_WITH_FORGED, base_length: 0, base_word: 0 }
    Enter { replica: 0, length: 5, word: 8, view: 1 }
    Enter { replica: 1, length: 5, word: 8, view: 1 }
    Enter { replica: 3, length: 5, word: 8, view: 1 }
    Decide { replica: 1, slot: 3, verdict: Verdict::Operation }

    Stamp { operation: READ_2001 }
    Deliver { replica: 0, slot: 5 }
    Deliver { replica: 1, slot: 5 }
    Deliver { replica: 3, slot: 5 }
    Stamp { operation: MALFORMED }
    Find { replica: 1 }
    Drop { replica: 0 }
    Drop { replica: 1 }
    Drop { replica: 3 }
    Decide { replica: 1, slot: 6, verdict: NoOp }
    Prepare { replica: 0, slot: 6, verdict: NoOp }
    Prepare { replica: 1, slot: 6, verdict: NoOp }
    Prepare { replica: 3, slot: 6, verdict: NoOp }
    Commit { replica: 0, slot: 6, verdict: NoOp }

    Leave { replica: 0, target: 64 }
    Leave { replica: 0, target: 63 }
    Leave { replica: 1, target: 63 }
    Leave { replica: 3, target: 63 }
    Lead { replica: 3, picks: &PICKS_63, base_length: 0, base_word: 0 }
    Lead { replica: 3, picks: &PICKS_63, base_length: 5, base_word: 8 }
    Start { replica: 0, picks: &PICKS_63, base_length: 5, base_word: 8 }
    Start { replica: 1, picks: &PICKS_63, base_length: 5, base_word: 8 }
    Start { replica: 3, picks: &PICKS_63, base_length: 5, base_word: 8 }
    Enter { replica: 0, length: 7, word: 72, view: 63 }
    Enter { replica: 1, length: 7, word: 72, view: 63 }
    Enter { replica: 3, length: 7, word: 72, view: 63 }
    Reply { replica: 0, slot: 4 }
    Reply { replica: 1, slot: 4 }
    Reply { replica: 3, slot: 4 }
    Reply { replica: 0, slot: 5 }
    Reply { replica: 1, slot: 5 }
    Reply { replica: 3, slot: 5 }

    Answer { room: ROOM, view: 0, slot: 2, word: 0, value: 6200 }
    NoOp { room: ROOM, view: 0, slot: 3 }
    Answer { room: ROOM, view: 0, slot: 4, word: 0, value: 6000 }
    Answer { room: ROOM, view: 63, slot: 4, word: 8, value: 6200 }
    Answer { room: ROOM, view: 1, slot: 5, word: 8, value: 6205 }
    NoOp { room: ROOM, view: 1, slot: 6 }
};

// Each with the number of the step before which it stands.
const HEADINGS: [(u64, &str); 6] = [
    (1, "Delivery"),
    (21, "A gap at slot 3, agreed as a no-op"),
    (50, "A change of view"),
    (
        71,
        "A gap at slot 6: a quorum prepares a no-op, and one replica commits it",
    ),
    (85, "A change of view over the line of view 1"),
    (103, "What is certified"),
];

/// Runs the life over a table of 48 places, with a spare sheet, and prints it.
pub fn run(rt: &HostRuntime) -> anyhow::Result<()> {
    println!(rt;
        "Readings: a life over the rating service and a table of 48 places with a spare sheet; \
         replica 2 is foreign"
    )?;
    let mut places = [Record::default(); 48];
    let mut register = SpareSheet::new(Table::new(&mut places));
    let mut service = Rating::new();
    let mut turns = TURNS;
    run_and_print(rt, 4, &mut register, &mut service, &mut turns, &HEADINGS)
}
