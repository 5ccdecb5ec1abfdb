//! The call find.
ghost use Rattle.std.specs.Prelude.{◌≡◌};
ghost use Rattle.bench.specs.States.{Tries, Does};
ghost use Rattle.protocol.specs.Call.{Find};

use crate::open::Bench;
use record::Record;
use refusal::Refusal;
use register::Register;
use replica::Activity;
use service::Service;

impl<'a, R: Register, S: Service> Bench<'a, R, S> {
    // The replica's number, or the grounds against the call, but for the register's own.
    fn may_find(&self, replica: u64) -> Result<u8, Refusal>
        ensures { Tries R.Register S.Service self.now (Find replica) replica result }
    {
        let replica = self.setup.check_honest(replica)?;
        let r = self.replica(replica);
        self.check_stamped(u64::from(r.length))?;
        r.admits(Activity::Work)?;
        self.check_leader(replica, r.view)?;
        Ok(replica)
    }

    /// Replica `replica`, the leader, looks for the operation of the slot at the end of its line,
    /// and says FIND. Refused on grounds 6 to 10 and 18.
    pub fn find(&mut self, replica: u64) -> Result<(), Refusal>
        ensures { Does R.Register S.Service self.old (Find replica) result self.new }
    {
        let replica = self.may_find(replica)?;
        let r = self.replica(replica);
        self.register
            .enter(&Record::find_by(replica, r.view, r.length))
    }
}
