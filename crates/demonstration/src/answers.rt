//! The answers of four replicas in a register with three places, and a quorum among them.
use crate::members::MEMBERS;
use quorum::count;
use record::Record;
use register::{Register, insert};
use registers::{SpareSheet, Table};

/// The statement that a replica answered `answer` for slot 4 of view 1, with slot 3 a no-op.
pub fn answer_of(signer: u8, answer: u64) -> Record {
    Record::reply_by(signer, 1, 4, 8, answer)
}

fn enter<R: Register>(
    rt: &HostRuntime,
    register: &mut R,
    statement: &Record,
) -> anyhow::Result<()> {
    let signer = statement.signer;
    match insert(register, statement) {
        Ok(true) => println!(rt; "  replica {signer}: entered")?,
        Ok(false) => println!(rt; "  replica {signer}: held already, no place is used")?,
        Err(refusal) => println!(rt; "  replica {signer}: {refusal}")?,
    }
    Ok(())
}

// No Display: one line of this program's output. How many said the statement, and a quorum of them.
fn print_quorum<R: Register>(
    rt: &HostRuntime,
    register: &R,
    statement: &Record,
) -> anyhow::Result<()> {
    let replicas = MEMBERS.replicas;
    let said = count(register, statement, replicas);
    print!(rt; "  {said} of {replicas} replicas said it")?;
    match MEMBERS.witnesses(register, statement) {
        Some(found) => {
            let [a, b, c, ..] = found;
            println!(rt; "; witnesses of the quorum: {a}, {b}, {c}")?
        }
        None => println!(rt; ", no quorum")?,
    }
    Ok(())
}

/// Enters the answers of four replicas into a table of three places, then with a spare sheet.
pub fn enter_answers(rt: &HostRuntime, answer: u64) -> anyhow::Result<()> {
    println!(rt; "Register: a table of 3 places, for the answers {answer} l/s of 4 replicas")?;
    let mut places = [Record::default(); 3];
    let mut table = Table::new(&mut places);
    enter(rt, &mut table, &answer_of(0, answer))?;
    enter(rt, &mut table, &answer_of(1, answer))?;
    enter(rt, &mut table, &answer_of(1, answer))?;
    print_quorum(rt, &table, &answer_of(0, answer))?;
    enter(rt, &mut table, &answer_of(2, answer))?;
    enter(rt, &mut table, &answer_of(3, answer))?;
    println!(rt; "Spare sheet: laid over the table, which is full")?;
    let mut sheet = SpareSheet::new(table);
    enter(rt, &mut sheet, &answer_of(2, answer))?;
    enter(rt, &mut sheet, &answer_of(3, answer))?;
    print_quorum(rt, &sheet, &answer_of(0, answer))
}
