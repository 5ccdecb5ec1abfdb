//! The call enter.
ghost use Rattle.std.specs.Prelude.{◌≡◌};
ghost use Rattle.bench.specs.States.{Tries, Does};
ghost use Rattle.protocol.specs.Call.{Enter};

use crate::grounds::{check_line, check_view};
use crate::open::Bench;
use record::Record;
use refusal::{Ground, Refusal};
use register::Register;
use replica::Activity;
use service::Service;

impl<'a, R: Register, S: Service> Bench<'a, R, S> {
    // The replica's number, the view and the line, or the grounds against the call.
    fn may_enter(
        &self,
        replica: u64,
        length: u64,
        word: u64,
        view: u64,
    ) -> Result<(u8, u8, (u8, u64)), Refusal>
        ensures { let call = Enter replica length word view in
            Tries R.Register S.Service self.now call (replica, view, (length, word)) result }
    {
        let replica = self.setup.check_honest(replica)?;
        let view = check_view(view)?;
        let line = check_line(length, word)?;
        let r = self.replica(replica);
        r.admits(Activity::Enter)?;
        if view <= r.view || view < r.target {
            return Err(Ground::SlotOrView.into());
        }
        self.check_quorum(&Record::entry_by(0, view, line))?;
        Ok((replica, view, line))
    }

    /// Replica `replica` enters the view with a line for which a quorum said ENTRY. Refused on
    /// grounds 6, 7, 8, 11 and 15.
    pub fn enter(&mut self, replica: u64, length: u64, word: u64, view: u64) -> Result<(), Refusal>
        ensures { let call = Enter replica length word view in
            Does R.Register S.Service self.old call result self.new }
    {
        let (replica, view, line) = self.may_enter(replica, length, word, view)?;
        self.status.replicas[usize::from(replica)].enter(view, line);
        Ok(())
    }
}
