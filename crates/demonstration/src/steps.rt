//! The steps of a life in words: each call, and what came of it.
use crate::statement::print_statement;
use crate::words::{InWords, print_answer};
use life::{Call, Outcome, Turn};
use record::Record;
use replica::Verdict;

// The bits stamped at a slot: 0, which stand for no operation, where none are.
fn stamped_at(operations: &[u64], slot: u64) -> u64 {
    operations.get(slot as usize).copied().unwrap_or(0)
}

// Prints a call of a replica on the verdict of a slot.
fn print_vote(rt: &HostRuntime, call: &Call<'_>) -> anyhow::Result<()> {
    let (does, replica, slot, verdict) = match *call {
        Call::Decide {
            replica,
            slot,
            verdict,
        } => ("decides", replica, slot, verdict),
        Call::Prepare {
            replica,
            slot,
            verdict,
        } => ("prepares", replica, slot, verdict),
        Call::Commit {
            replica,
            slot,
            verdict,
        } => ("commits", replica, slot, verdict),
        Call::Settle {
            replica,
            slot,
            verdict,
        } => ("settles", replica, slot, verdict),
        _ => return Ok(()),
    };
    let verdict = match verdict {
        Verdict::Operation => "operation",
        Verdict::NoOp => "no-op",
    };
    print!(rt; "replica {replica} {does} {verdict} for slot {slot}")?;
    Ok(())
}

// Prints the signers of the picks.
fn print_signers(rt: &HostRuntime, picks: &[Record]) -> anyhow::Result<()> {
    for pick in picks {
        let signer = pick.signer;
        print!(rt; " {signer},")?;
    }
    Ok(())
}

// Prints who leads or starts a view, with the signers of the picks and the base.
fn print_merge(rt: &HostRuntime, call: &Call<'_>) -> anyhow::Result<()> {
    let (does, replica, picks, base_length, base_word) = match *call {
        Call::Lead {
            replica,
            picks,
            base_length,
            base_word,
        } => ("leads", replica, picks, base_length, base_word),
        Call::Start {
            replica,
            picks,
            base_length,
            base_word,
        } => ("starts", replica, picks, base_length, base_word),
        _ => return Ok(()),
    };
    print!(rt; "replica {replica} {does} with the picks of")?;
    print_signers(rt, picks)?;
    print!(rt; " base of length {base_length} and word {base_word}")?;
    Ok(())
}

// Prints what a certificate call asks.
fn print_question<S: InWords>(
    rt: &HostRuntime,
    operations: &[u64],
    call: &Call<'_>,
) -> anyhow::Result<()> {
    match *call {
        Call::Answer {
            view,
            slot,
            word,
            value,
            ..
        } => {
            print!(rt; "is ")?;
            print_answer::<S>(rt, stamped_at(operations, slot), value)?;
            print!(rt; " certified for slot {slot} in view {view} with word {word}")?
        }
        Call::NoOp { view, slot, .. } => {
            print!(rt; "is no-op certified for slot {slot} in view {view}")?
        }
        _ => {}
    }
    Ok(())
}

// Prints a call in words, up to what comes of it.
fn print_call<S: InWords>(
    rt: &HostRuntime,
    operations: &[u64],
    call: &Call<'_>,
) -> anyhow::Result<()> {
    match *call {
        Call::Stamp { operation } => {
            print!(rt; "the sequencer stamps ")?;
            S::print_operation(rt, operation)?
        }
        Call::Deliver { replica, slot } => print!(rt; "replica {replica} delivers slot {slot}")?,
        Call::Find { replica } => print!(rt; "replica {replica} finds the slot at its length")?,
        Call::Drop { replica } => print!(rt; "replica {replica} drops the slot at its length")?,
        Call::Reply { replica, slot } => print!(rt; "replica {replica} replies for slot {slot}")?,
        Call::Leave { replica, target } => print!(rt;
            "replica {replica} leaves for view {target}"
        )?,
        Call::Enter {
            replica,
            length,
            word,
            view,
        } => print!(rt;
            "replica {replica} enters view {view} with length {length} and word {word}"
        )?,
        Call::Forge { statement } => {
            print!(rt; "forge ")?;
            print_statement(rt, &statement)?
        }
        Call::Decide { .. } | Call::Prepare { .. } | Call::Commit { .. } | Call::Settle { .. } => {
            print_vote(rt, call)?
        }
        Call::Lead { .. } | Call::Start { .. } => print_merge(rt, call)?,
        Call::Answer { .. } | Call::NoOp { .. } => print_question::<S>(rt, operations, call)?,
    }
    Ok(())
}

// Prints what came of a call, to the end of its line. Three witnesses are a quorum here.
fn print_outcome(rt: &HostRuntime, came: Outcome) -> anyhow::Result<()> {
    match came {
        Outcome::Granted => println!(rt; ": granted")?,
        Outcome::Yes(witnesses) => {
            let [a, b, c, ..] = witnesses;
            println!(rt; "? yes, by {a}, {b}, {c}")?
        }
        Outcome::No => println!(rt; "? no")?,
        Outcome::Refused(refusal) => println!(rt; ": {refusal}")?,
    }
    Ok(())
}

// Prints the heading that stands before the step, if one does.
fn print_heading(rt: &HostRuntime, headings: &[(u64, &str)], step: u64) -> anyhow::Result<()> {
    if let Some((_, heading)) = headings.iter().find(|(first, _)| *first == step) {
        println!(rt; "  {heading}:")?;
    }
    Ok(())
}

/// Prints the turns of a life that was run, one line each, from step 1. A heading has the number of
/// the step before which it stands.
pub fn print_turns<S: InWords>(
    rt: &HostRuntime,
    operations: &[u64],
    turns: &[Turn<'_>],
    headings: &[(u64, &str)],
) -> anyhow::Result<()> {
    for (step, turn) in (1u64..).zip(turns) {
        print_heading(rt, headings, step)?;
        print!(rt; "    step {step}: ")?;
        print_call::<S>(rt, operations, &turn.call)?;
        match turn.outcome {
            Some(came) => print_outcome(rt, came)?,
            None => println!(rt; ": not made")?,
        }
    }
    Ok(())
}
