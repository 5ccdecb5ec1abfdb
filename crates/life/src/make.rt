//! Making one call.
ghost use Rattle.std.specs.Prelude.{◌≡◌};
ghost use Rattle.protocol.specs.Call.{AskAnswer, AskNoOp};
ghost use Rattle.life.specs.Calls.{call_of, certificate_outcome};
ghost use Rattle.life.specs.Making.{Makes};

use crate::call::{Call, Outcome};
use bench::Bench;
use record::SIGNERS;
use refusal::Refusal;
use register::Register;
use service::Service;

// The outcome of a certificate call that answered so and left these bytes in the runner's buffer.
fn certificate_outcome(answer: Result<bool, Refusal>, witnesses: [u8; SIGNERS]) -> Outcome
    ensures { result ≡ certificate_outcome answer witnesses }
{
    match answer {
        Ok(true) => Outcome::Yes(witnesses),
        Ok(false) => Outcome::No,
        Err(refusal) => Outcome::Refused(refusal),
    }
}

// Asks whether an answer is certified, with a buffer of the runner's own for witnesses.
fn ask_answer<R: Register, S: Service>(
    bench: &Bench<'_, R, S>,
    room: u64,
    view: u64,
    slot: u64,
    word: u64,
    value: u64,
) -> Outcome
    ensures { let call = AskAnswer room view slot word value in
        Makes R.Register S.Service bench.now call result bench.now }
{
    let mut witnesses = [0; SIGNERS];
    let offered = &mut witnesses[..room.min(SIGNERS as u64) as usize];
    let answer = bench.answer(offered, view, slot, word, value);
    certificate_outcome(answer, witnesses)
}

// Asks whether a no-op is certified, likewise.
fn ask_no_op<R: Register, S: Service>(
    bench: &Bench<'_, R, S>,
    room: u64,
    view: u64,
    slot: u64,
) -> Outcome
    ensures { Makes R.Register S.Service bench.now (AskNoOp room view slot) result bench.now }
{
    let mut witnesses = [0; SIGNERS];
    let offered = &mut witnesses[..room.min(SIGNERS as u64) as usize];
    let answer = bench.no_op(offered, view, slot);
    certificate_outcome(answer, witnesses)
}

// Makes a call.
pub(crate) fn make<R: Register, S: Service>(bench: &mut Bench<'_, R, S>, call: &Call<'_>) -> Outcome
    ensures { Makes R.Register S.Service bench.old (call_of call.now) result bench.new }
{
    match *call {
        Call::Stamp { operation } => bench.stamp(operation).into(),
        Call::Deliver { replica, slot } => bench.deliver(replica, slot).into(),
        Call::Find { replica } => bench.find(replica).into(),
        Call::Drop { replica } => bench.drop(replica).into(),
        Call::Decide {
            replica,
            slot,
            verdict,
        } => bench.decide(replica, slot, verdict).into(),
        Call::Prepare {
            replica,
            slot,
            verdict,
        } => bench.prepare(replica, slot, verdict).into(),
        Call::Commit {
            replica,
            slot,
            verdict,
        } => bench.commit(replica, slot, verdict).into(),
        Call::Settle {
            replica,
            slot,
            verdict,
        } => bench.settle(replica, slot, verdict).into(),
        Call::Reply { replica, slot } => bench.reply(replica, slot).into(),
        Call::Leave { replica, target } => bench.leave(replica, target).into(),
        Call::Forge { statement } => bench.forge(&statement).into(),
        Call::Lead {
            replica,
            picks,
            base_length,
            base_word,
        } => bench.lead(replica, picks, base_length, base_word).into(),
        Call::Start {
            replica,
            picks,
            base_length,
            base_word,
        } => bench.start(replica, picks, base_length, base_word).into(),
        Call::Enter {
            replica,
            length,
            word,
            view,
        } => bench.enter(replica, length, word, view).into(),
        Call::Answer {
            room,
            view,
            slot,
            word,
            value,
        } => ask_answer(bench, room, view, slot, word, value),
        Call::NoOp { room, view, slot } => ask_no_op(bench, room, view, slot),
    }
}
