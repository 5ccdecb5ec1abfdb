//! The call prepare.
ghost use Rattle.std.specs.Prelude.{◌≡◌};
ghost use Rattle.bench.specs.States.{Tries, Does};
ghost use Rattle.protocol.specs.Call.{Prepare};

use crate::grounds::check_open;
use crate::open::Bench;
use record::Record;
use refusal::Refusal;
use register::Register;
use replica::Verdict;
use service::Service;

impl<'a, R: Register, S: Service> Bench<'a, R, S> {
    // The replica's number and the slot, or the grounds against the call, but for the register's
    // own.
    fn may_prepare(&self, replica: u64, slot: u64, verdict: Verdict) -> Result<(u8, u8), Refusal>
        ensures { let call = Prepare replica slot verdict in
            Tries R.Register S.Service self.now call (replica, slot) result }
    {
        let (replica, slot) = self.check_work(replica, slot)?;
        let r = self.replica(replica);
        check_open(&r, slot)?;
        self.check_none(&Record::prepare_by(replica, r.view, slot, verdict.other().into()))?;
        let leader = self.setup.leader(r.view);
        self.check_said(&Record::decision_by(leader, r.view, slot, verdict.into()))?;
        self.check_dropped(r.view, slot, verdict)?;
        Ok((replica, slot))
    }

    /// Replica `replica` takes up its leader's DECISION on the slot, and says PREPARE. Refused on
    /// grounds 6 to 9, 11, 12, 15 and 18.
    pub fn prepare(&mut self, replica: u64, slot: u64, verdict: Verdict) -> Result<(), Refusal>
        ensures { let call = Prepare replica slot verdict in
            Does R.Register S.Service self.old call result self.new }
    {
        let (replica, slot) = self.may_prepare(replica, slot, verdict)?;
        let r = self.replica(replica);
        self.register
            .enter(&Record::prepare_by(replica, r.view, slot, verdict.into()))
    }
}
