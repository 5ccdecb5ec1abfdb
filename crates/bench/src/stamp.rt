//! The call stamp.
ghost use Rattle.bench.specs.States.{Does};
ghost use Rattle.protocol.specs.Call.{Stamp};

use crate::open::Bench;
use refusal::{Ground, Refusal};
use register::Register;
use service::Service;

impl<'a, R: Register, S: Service> Bench<'a, R, S> {
    /// Gives the operation to the lowest slot that is not stamped. Refused on ground 17.
    pub fn stamp(&mut self, operation: u64) -> Result<(), Refusal>
        ensures { Does R.Register S.Service self.old (Stamp operation) result self.new }
    {
        if self.status.operations.is_full() {
            return Err(Ground::SlotsExhausted.into());
        }
        self.status.operations.push(operation);
        Ok(())
    }
}
