//! A statement in words.
use record::{Kind, Record};

// Prints which slot a statement is about, and in which view.
fn print_slot(rt: &HostRuntime, slot: u8, view: u8) -> anyhow::Result<()> {
    print!(rt; "for slot {slot} in view {view}")?;
    Ok(())
}

/// Prints the kind and the signer of a statement, and the fields that its kind uses. The number of
/// its kind has to be one.
// No Display: part of one line of this program's output.
pub fn print_statement(rt: &HostRuntime, statement: &Record) -> anyhow::Result<()> {
    let Record {
        kind,
        signer,
        view,
        last,
        slot,
        verdict,
        word,
        result,
    } = *statement;
    let kind = Kind::try_from(kind)?;
    print!(rt; "{kind} of replica {signer} ")?;
    match kind {
        Kind::Reply => {
            print_slot(rt, slot, view)?;
            print!(rt; ", word {word}, result {result}")?
        }
        Kind::Find | Kind::Drop => print_slot(rt, slot, view)?,
        Kind::Decision | Kind::Prepare | Kind::Commit => {
            print_slot(rt, slot, view)?;
            print!(rt; ", verdict {verdict}")?
        }
        Kind::ViewChange => {
            print!(rt; "from view {last} to view {view}, reach {slot}, word {word}")?
        }
        Kind::ViewStart | Kind::Entry => {
            print!(rt; "for view {view}, length {slot}, word {word}")?
        }
    }
    Ok(())
}
