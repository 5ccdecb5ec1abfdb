//! The call settle.
ghost use Rattle.std.specs.Prelude.{◌≡◌};
ghost use Rattle.bench.specs.States.{Tries, Does};
ghost use Rattle.protocol.specs.Call.{Settle};

use crate::grounds::check_open;
use crate::open::Bench;
use record::Record;
use refusal::Refusal;
use register::Register;
use replica::Verdict;
use service::Service;

impl<'a, R: Register, S: Service> Bench<'a, R, S> {
    // The replica's number and the slot, or the grounds against the call.
    fn may_settle(&self, replica: u64, slot: u64, verdict: Verdict) -> Result<(u8, u8), Refusal>
        ensures { let call = Settle replica slot verdict in
            Tries R.Register S.Service self.now call (replica, slot) result }
    {
        let (replica, slot) = self.check_work(replica, slot)?;
        let r = self.replica(replica);
        check_open(&r, slot)?;
        self.check_quorum(&Record::commit_by(0, r.view, slot, verdict.into()))?;
        Ok((replica, slot))
    }

    /// Replica `replica` puts a verdict that a quorum committed for the slot into its line. A no-op
    /// is sealed. Refused on grounds 6 to 9, 11 and 15.
    pub fn settle(&mut self, replica: u64, slot: u64, verdict: Verdict) -> Result<(), Refusal>
        ensures { let call = Settle replica slot verdict in
            Does R.Register S.Service self.old call result self.new }
    {
        let (replica, slot) = self.may_settle(replica, slot, verdict)?;
        self.status.replicas[usize::from(replica)].settle(slot, verdict);
        Ok(())
    }
}
