//! The call forge.
ghost use Rattle.std.specs.Prelude.{◌≡◌};
ghost use Rattle.bench.specs.States.{Tries, Does};
ghost use Rattle.protocol.specs.Call.{Forge};

use crate::open::Bench;
use record::Record;
use refusal::{Ground, Refusal};
use register::Register;
use service::Service;

impl<'a, R: Register, S: Service> Bench<'a, R, S> {
    // The grounds against the call, but for the register's own.
    fn may_forge(&self, statement: &Record) -> Result<(), Refusal>
        ensures { Tries R.Register S.Service self.now (Forge statement.now) tt result }
    {
        if !statement.keeps_layout() {
            return Err(Ground::Layout.into());
        }
        self.setup.check_foreign(statement.signer)
    }

    /// The foreign replica that signs the statement says it, whatever it is. Refused on grounds 2,
    /// 6, 7 and 18.
    pub fn forge(&mut self, statement: &Record) -> Result<(), Refusal>
        ensures { Does R.Register S.Service self.old (Forge statement.now) result self.new }
    {
        self.may_forge(statement)?;
        self.register.enter(statement)
    }
}
