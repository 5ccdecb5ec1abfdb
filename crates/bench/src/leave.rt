//! The call leave.
ghost use Rattle.std.specs.Prelude.{◌≡◌};
ghost use Rattle.bench.specs.States.{Tries, Does};
ghost use Rattle.protocol.specs.Call.{Leave};

use crate::grounds::check_view;
use crate::open::Bench;
use record::Record;
use refusal::{Ground, Refusal};
use register::Register;
use replica::Activity;
use service::Service;

impl<'a, R: Register, S: Service> Bench<'a, R, S> {
    // The replica's number and the target, or the grounds against the call, but for the register's
    // own.
    fn may_leave(&self, replica: u64, target: u64) -> Result<(u8, u8), Refusal>
        ensures { let call = Leave replica target in
            Tries R.Register S.Service self.now call (replica, target) result }
    {
        let replica = self.setup.check_honest(replica)?;
        let target = check_view(target)?;
        let r = self.replica(replica);
        r.admits(Activity::Leave)?;
        if target <= r.target {
            return Err(Ground::SlotOrView.into());
        }
        Ok((replica, target))
    }

    /// Replica `replica` leaves for the view `target`, and says VIEW-CHANGE. Refused on grounds 6,
    /// 7, 8, 11 and 18.
    pub fn leave(&mut self, replica: u64, target: u64) -> Result<(), Refusal>
        ensures { Does R.Register S.Service self.old (Leave replica target) result self.new }
    {
        let (replica, target) = self.may_leave(replica, target)?;
        let r = self.replica(replica);
        let statement = Record::view_change_by(replica, target, r.view, r.reach(), r.sealed);
        self.register.enter(&statement)?;
        self.status.replicas[usize::from(replica)].leave(target);
        Ok(())
    }
}
