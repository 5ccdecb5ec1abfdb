//! The call decide.
ghost use Rattle.std.specs.Prelude.{◌≡◌};
ghost use Rattle.bench.specs.States.{Tries, Does};
ghost use Rattle.protocol.specs.Call.{Decide};

use crate::grounds::check_open;
use crate::open::Bench;
use record::Record;
use refusal::Refusal;
use register::Register;
use replica::Verdict;
use service::Service;

impl<'a, R: Register, S: Service> Bench<'a, R, S> {
    // The replica's number and the slot, or the grounds against the call, but for the register's
    // own.
    fn may_decide(&self, replica: u64, slot: u64, verdict: Verdict) -> Result<(u8, u8), Refusal>
        ensures { let call = Decide replica slot verdict in
            Tries R.Register S.Service self.now call (replica, slot) result }
    {
        let (replica, slot) = self.check_work(replica, slot)?;
        let r = self.replica(replica);
        self.check_leader(replica, r.view)?;
        check_open(&r, slot)?;
        self.check_none(&Record::decision_by(replica, r.view, slot, verdict.other().into()))?;
        self.check_dropped(r.view, slot, verdict)?;
        Ok((replica, slot))
    }

    /// Replica `replica`, the leader, says its DECISION on the slot. Refused on grounds 6 to 12, 15
    /// and 18.
    pub fn decide(&mut self, replica: u64, slot: u64, verdict: Verdict) -> Result<(), Refusal>
        ensures { let call = Decide replica slot verdict in
            Does R.Register S.Service self.old call result self.new }
    {
        let (replica, slot) = self.may_decide(replica, slot, verdict)?;
        let r = self.replica(replica);
        self.register.enter(&Record::decision_by(replica, r.view, slot, verdict.into()))
    }
}
