//! The call start.
ghost use Rattle.std.specs.Prelude.{◌≡◌};
ghost use Rattle.merge.specs.Merges.{merge};
ghost use Rattle.bench.specs.States.{Tries, Does};
ghost use Rattle.protocol.specs.Call.{Start};

use crate::grounds::check_line;
use crate::open::Bench;
use merge::check_layout;
use record::Record;
use refusal::{Ground, Refusal};
use register::Register;
use replica::Activity;
use service::Service;

impl<'a, R: Register, S: Service> Bench<'a, R, S> {
    // The replica's number and the line that the picks merge to, or the grounds against the call,
    // but for the register's own.
    fn may_start(
        &self,
        replica: u64,
        picks: &[Record],
        base_length: u64,
        base_word: u64,
    ) -> Result<(u8, (u8, u64)), Refusal>
        ensures { let call = Start replica picks.now base_length base_word in
            let line = merge (base_length, base_word) picks.now in
            Tries R.Register S.Service self.now call (replica, line) result }
    {
        check_layout(picks)?;
        let replica = self.setup.check_honest(replica)?;
        let base = check_line(base_length, base_word)?;
        let r = self.replica(replica);
        r.admits(Activity::Start)?;
        if r.mark {
            return Err(Ground::Barred.into());
        }
        let line = self
            .view_change(r.target)
            .merging(&*self.register, picks, base)?;
        if !self.register.ask(&Record::view_start_by(self.setup.leader(r.target), r.target, line)) {
            return Err(Ground::ViewStartMissing.into());
        }
        Ok((replica, line))
    }

    /// Replica `replica` says ENTRY for its target with the line that the picks merge to over a
    /// base, for which the target's leader said VIEW-START. Refused on grounds 2, 6 to 9, 12 to 16
    /// and 18; on 2, 13 and 15 at the place of the pick.
    #[tactic(auto, using(register::proofs::Entering::adds_nothing))]
    pub fn start(
        &mut self,
        replica: u64,
        picks: &[Record],
        base_length: u64,
        base_word: u64,
    ) -> Result<(), Refusal>
        ensures { let call = Start replica picks.now base_length base_word in
            Does R.Register S.Service self.old call result self.new }
    {
        let (replica, line) = self.may_start(replica, picks, base_length, base_word)?;
        let r = self.replica(replica);
        self.register
            .enter(&Record::entry_by(replica, r.target, line))?;
        self.status.replicas[usize::from(replica)].start();
        Ok(())
    }
}
