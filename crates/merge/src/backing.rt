//! What the register must hold for the picks.
ghost use Rattle.std.specs.Prelude.{◌≡◌};
ghost use Rattle.merge.specs.Checks.{prepared, backed, backing_grounds};

use crate::picks::first_fault;
use quorum::Membership;
use record::Record;
use refusal::{Ground, Refusal};
use register::Register;
use replica::{SLOTS, Verdict, bit};

// Register and members stay two arguments: a register is lent, members are copied.

// Whether a quorum said PREPARE of no-op in the view for each slot whose bit the word has.
// `reached` asks for each signer, whichever the statement has.
fn prepared<R: Register>(register: &R, members: Membership, view: u8, word: u64) -> bool
    ensures { result ≡ prepared (R.held register.now) members view word }
{
    (0..SLOTS as u8).all(|slot| !bit(word, slot)
        || members.reached(
            register,
            &Record::prepare_by(0, view, slot, Verdict::NoOp.into()),
        ))
}

// Whether a pick is in the register and, if its last is `top`, its word is prepared in that view.
fn backed<R: Register>(register: &R, members: Membership, top: u8, pick: &Record) -> bool
    ensures { result ≡ backed (R.held register.now) members top pick.now }
{
    register.ask(pick) && (pick.last != top || prepared(register, members, top, pick.word))
}

// Refuses the first pick that is not backed, at its place.
pub(crate) fn check_backing<R: Register>(
    register: &R,
    members: Membership,
    top: u8,
    picks: &[Record],
) -> Result<(), Refusal>
    ensures { result ≡ backing_grounds (R.held register.now) members top picks.now }
{
    first_fault(
        picks,
        Ground::StatementsMissing,
        |_, pick| backed(register, members, top, pick),
    )
}
