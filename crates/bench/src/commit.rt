//! The call commit.
ghost use Rattle.std.specs.Prelude.{◌≡◌};
ghost use Rattle.bench.specs.States.{Tries, Does};
ghost use Rattle.protocol.specs.Call.{Commit};

use crate::grounds::check_open;
use crate::open::Bench;
use record::Record;
use refusal::Refusal;
use register::Register;
use replica::Verdict;
use service::Service;

impl<'a, R: Register, S: Service> Bench<'a, R, S> {
    // The replica's number and the slot, or the grounds against the call, but for the register's
    // own.
    fn may_commit(&self, replica: u64, slot: u64, verdict: Verdict) -> Result<(u8, u8), Refusal>
        ensures { let call = Commit replica slot verdict in
            Tries R.Register S.Service self.now call (replica, slot) result }
    {
        let (replica, slot) = self.check_work(replica, slot)?;
        let r = self.replica(replica);
        check_open(&r, slot)?;
        self.check_quorum(&Record::prepare_by(0, r.view, slot, verdict.into()))?;
        Ok((replica, slot))
    }

    /// Replica `replica` says COMMIT of a verdict that a quorum prepared for the slot. A no-op is
    /// sealed. Refused on grounds 6 to 9, 11, 15 and 18.
    pub fn commit(&mut self, replica: u64, slot: u64, verdict: Verdict) -> Result<(), Refusal>
        ensures { let call = Commit replica slot verdict in
            Does R.Register S.Service self.old call result self.new }
    {
        let (replica, slot) = self.may_commit(replica, slot, verdict)?;
        let r = self.replica(replica);
        self.register
            .enter(&Record::commit_by(replica, r.view, slot, verdict.into()))?;
        self.status.replicas[usize::from(replica)].commit(slot, verdict);
        Ok(())
    }
}
