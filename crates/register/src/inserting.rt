//! Entering a record into any register, and telling whether it was new.
ghost use Rattle.std.specs.Prelude.{◌≡◌, true, is_ok};
ghost use Rattle.register.specs.Insertions.{Enters, InsertGranted, Inserts};

use crate::Register;
use record::Record;
use refusal::Refusal;

// Enters `r`. What a grant comes to is told by members and places.
fn enter<R: Register>(register: &mut R, r: &Record) -> Result<(), Refusal>
    ensures enters { Enters R.Register register.old r.now result register.new }
    ensures granted { is_ok result ≡ true →
        InsertGranted R.Register register.old r.now register.new }
{
    register.enter(r)
}

/// Enters `r`, and answers whether it was new to the register. Refused on ground 2 or 18, as
/// entering is. Where it is refused or was a member, set, free places and memory stay.
pub fn insert<R: Register>(register: &mut R, r: &Record) -> Result<bool, Refusal>
    ensures { Inserts R.Register register.old r.now result register.new }
{
    let known = register.ask(r);
    enter(register, r)?;
    Ok(!known)
}
