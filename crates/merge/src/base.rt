//! The base of a merge, which the register must certify.
ghost use Rattle.std.specs.Prelude.{◌≡◌};
ghost use Rattle.merge.specs.Checks.{certified, base_grounds};

use quorum::Membership;
use record::Record;
use refusal::{Ground, Refusal};
use register::Register;

// Register and members stay two arguments: a register is lent, members are copied.

// Whether the base is certified for the view: 0 and 0 for view 0, else a quorum said ENTRY with it.
// `reached` asks for each signer, whichever the statement has.
fn certified<R: Register>(register: &R, members: Membership, view: u8, base: (u8, u64)) -> bool
    ensures { result ≡ certified (R.held register.now) members view base }
{
    if view == 0 {
        base == (0, 0)
    } else {
        members.reached(register, &Record::entry_by(0, view, base))
    }
}

// Refuses a base that is not certified for the view.
pub(crate) fn check_base<R: Register>(
    register: &R,
    members: Membership,
    view: u8,
    base: (u8, u64),
) -> Result<(), Refusal>
    ensures { result ≡ base_grounds (R.held register.now) members view base }
{
    if !certified(register, members, view, base) {
        return Err(Ground::BaseNotCertified.into());
    }
    Ok(())
}
