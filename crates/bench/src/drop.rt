//! The call drop.
ghost use Rattle.std.specs.Prelude.{◌≡◌};
ghost use Rattle.bench.specs.States.{Tries, Does};
ghost use Rattle.protocol.specs.Call.{Drop};

use crate::open::Bench;
use record::Record;
use refusal::Refusal;
use register::Register;
use replica::Activity;
use service::Service;

impl<'a, R: Register, S: Service> Bench<'a, R, S> {
    // The replica's number, or the grounds against the call, but for the register's own.
    fn may_drop(&self, replica: u64) -> Result<u8, Refusal>
        ensures { Tries R.Register S.Service self.now (Drop replica) replica result }
    {
        let replica = self.setup.check_honest(replica)?;
        let r = self.replica(replica);
        self.check_stamped(u64::from(r.length))?;
        r.admits(Activity::Work)?;
        self.check_said(&Record::find_by(self.setup.leader(r.view), r.view, r.length))?;
        Ok(replica)
    }

    /// Replica `replica` says DROP for the slot at the end of its line, for which its leader said
    /// FIND. Refused on grounds 6 to 9, 15 and 18.
    pub fn drop(&mut self, replica: u64) -> Result<(), Refusal>
        ensures { Does R.Register S.Service self.old (Drop replica) result self.new }
    {
        let replica = self.may_drop(replica)?;
        let r = self.replica(replica);
        self.register
            .enter(&Record::drop_by(replica, r.view, r.length))
    }
}
