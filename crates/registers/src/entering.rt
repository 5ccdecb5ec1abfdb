//! Entering a statement into a store of records.
ghost use Rattle.registers.specs.Stores.{StoreEnters};

use crate::store::{Store, holds};
use record::Record;
use refusal::{Ground, Refusal};

// Enters `r`: appends it where it is a new statement and there is room.
pub(crate) fn enter<S: Store>(store: &mut S, r: &Record) -> Result<(), Refusal>
    ensures { StoreEnters S.Store store.old r.now result store.new }
{
    if !r.keeps_layout() {
        return Err(Ground::Layout.into());
    }
    if holds(store.records(), r) {
        return Ok(());
    }
    if store.is_full() {
        return Err(Ground::RegisterFull.into());
    }
    store.append(*r);
    Ok(())
}
