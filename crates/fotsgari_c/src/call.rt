//! Calls of C.
ghost use Rattle.std.specs.Prelude.{◌≡◌, ◌≤◌};
ghost use Rattle.fotsgari_c.specs.Calls.{verdict_of, Picks, record_at, meant, vote, merging_call, ReadsAll};

use crate::fault::Fault;
use record::Record;
use replica::Verdict;
use std::alloc::Global;

/// A call: its number, and its arguments in the order of docs/PROTOCOL.md. Any number is allowed in
/// each.
#[repr(C)]
#[derive(Clone, Copy, Debug)]
pub struct Call {
    pub number: u64,
    /// A verdict is 0 or 1, a statement its place among the records, and the picks are two numbers:
    /// the place of the first among the records, and how many they are.
    pub arguments: [u64; 5],
}

// The verdict of this number.
fn verdict(number: u64) -> Result<Verdict, Fault>
    ensures { result ≡ verdict_of number }
{
    match number {
        0 => Ok(Verdict::Operation),
        1 => Ok(Verdict::NoOp),
        _ => Err(Fault::Verdict),
    }
}

// So many records, from this place on.
fn picks<'a>(records: &'a [Record], first: u64, count: u64) -> Result<&'a [Record], Fault>
    ensures { Picks records.now first count result }
{
    let length = records.len() as u64;
    if first > length || count > length - first {
        return Err(Fault::Records);
    }
    Ok(&records[first as usize..(first + count) as usize])
}

// The record at this place.
fn record_at(records: &[Record], index: u64) -> Result<Record, Fault>
    ensures { result ≡ record_at records.now index }
{
    records.get(index as usize).copied().ok_or(Fault::Records)
}

// One of the four calls with a verdict.
fn vote<'a>(
    number: u64,
    replica: u64,
    slot: u64,
    verdict_number: u64,
) -> Result<life::Call<'a>, Fault>
    requires from { 5 ≤ number }
    requires to { number ≤ 8 }
    ensures { meant result ≡ vote number replica slot verdict_number }
{
    let verdict = verdict(verdict_number)?;
    Ok(match number {
        5 => life::Call::Decide {
            replica,
            slot,
            verdict,
        },
        6 => life::Call::Prepare {
            replica,
            slot,
            verdict,
        },
        7 => life::Call::Commit {
            replica,
            slot,
            verdict,
        },
        _ => life::Call::Settle {
            replica,
            slot,
            verdict,
        },
    })
}

// One of the two calls with picks.
fn merging<'a>(
    number: u64,
    records: &'a [Record],
    arguments: [u64; 5],
) -> Result<life::Call<'a>, Fault>
    requires from { 12 ≤ number }
    requires to { number ≤ 13 }
    ensures { meant result ≡ merging_call number records.now arguments }
{
    let [replica, first, count, base_length, base_word] = arguments;
    let picks = picks(records, first, count)?;
    Ok(if number == 12 {
        life::Call::Lead {
            replica,
            picks,
            base_length,
            base_word,
        }
    } else {
        life::Call::Start {
            replica,
            picks,
            base_length,
            base_word,
        }
    })
}

impl Call {
    ghost use Rattle.fotsgari_c.specs.Calls.{read};

    // The call that it stands for, with these records.
    fn read<'a>(self, records: &'a [Record]) -> Result<life::Call<'a>, Fault>
        ensures { meant result ≡ read records.now self }
    {
        Ok(match (self.number, self.arguments) {
            (1, [operation, ..]) => life::Call::Stamp { operation },
            (2, [replica, slot, ..]) => life::Call::Deliver { replica, slot },
            (3, [replica, ..]) => life::Call::Find { replica },
            (4, [replica, ..]) => life::Call::Drop { replica },
            (5..=8, [replica, slot, verdict, ..]) => vote(self.number, replica, slot, verdict)?,
            (9, [replica, slot, ..]) => life::Call::Reply { replica, slot },
            (10, [replica, target, ..]) => life::Call::Leave { replica, target },
            (11, [index, ..]) => life::Call::Forge {
                statement: record_at(records, index)?,
            },
            (12..=13, arguments) => merging(self.number, records, arguments)?,
            (14, [replica, length, word, view, _]) => life::Call::Enter {
                replica,
                length,
                word,
                view,
            },
            (15, [room, view, slot, word, value]) => life::Call::Answer {
                room,
                view,
                slot,
                word,
                value,
            },
            (16, [room, view, slot, ..]) => life::Call::NoOp { room, view, slot },
            _ => return Err(Fault::CallNumber),
        })
    }
}

// The calls that they stand for, with these records, in turns that are still to come.
pub(crate) fn turns_of<'a>(
    alloc: Global,
    calls: &[Call],
    records: &'a [Record],
) -> Result<Vec<life::Turn<'a>>, Fault>
    ensures { ReadsAll records.now calls.now result }
{
    let mut turns = Vec::new(alloc);
    for call in calls {
        let turn = life::Turn::from(call.read(records)?);
        turns.push(turn).map_err(|_| Fault::Memory)?;
    }
    Ok(turns)
}
