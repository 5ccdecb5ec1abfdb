//! The call deliver.
ghost use Rattle.std.specs.Prelude.{◌≡◌};
ghost use Rattle.bench.specs.States.{Tries, Does};
ghost use Rattle.protocol.specs.Call.{Deliver};

use crate::open::Bench;
use record::Record;
use refusal::{Ground, Refusal};
use register::Register;
use service::Service;

impl<'a, R: Register, S: Service> Bench<'a, R, S> {
    // The replica's number, or the grounds against the call, but for the register's own.
    fn may_deliver(&self, replica: u64, slot: u64) -> Result<u8, Refusal>
        ensures { Tries R.Register S.Service self.now (Deliver replica slot) replica result }
    {
        let (replica, slot) = self.check_work(replica, slot)?;
        let r = self.replica(replica);
        if slot != r.length {
            return Err(Ground::SlotOrView.into());
        }
        self.check_none(&Record::drop_by(replica, r.view, slot))?;
        Ok(replica)
    }

    /// Replica `replica` says its answer for the slot at the end of its line, and appends an
    /// operation. Refused on grounds 6 to 9, 11, 12 and 18.
    pub fn deliver(&mut self, replica: u64, slot: u64) -> Result<(), Refusal>
        ensures { Does R.Register S.Service self.old (Deliver replica slot) result self.new }
    {
        let replica = self.may_deliver(replica, slot)?;
        let r = self.replica(replica);
        let answer = self.answer_along(r.word, r.length);
        self.register.enter(&Record::reply_by(replica, r.view, r.length, r.word, answer))?;
        self.status.replicas[usize::from(replica)].deliver();
        Ok(())
    }
}
