//! The grounds that several calls share. Each check answers what it checked.
ghost use Rattle.std.specs.Prelude.{◌≡◌, ◌<◌, Ok, IfOk, length};
ghost use Rattle.protocol.specs.Grounds.{if_honest, if_stamped, if_view, if_line, if_working, if_leader, if_open, if_none, if_said, if_quorum, if_dropped};
ghost use Rattle.protocol.specs.Setup.{change_to};
ghost use Rattle.protocol.specs.State.{replica_at};
ghost use Rattle.bench.specs.Setups.{setup_of};
ghost use Rattle.bench.specs.States.{state_of};

use crate::open::Bench;
use merge::ViewChange;
use record::{Record, ends_below};
use refusal::{Ground, Refusal};
use register::Register;
use replica::{Activity, Replica, SLOTS, Verdict};
use service::Service;

// The last view.
const LAST_VIEW: u64 = 63;

// The view. Refuses one after the last.
pub(crate) fn check_view(view: u64) -> Result<u8, Refusal>
    ensures { result ≡ if_view view (Ok view) }
{
    if view > LAST_VIEW {
        return Err(Ground::ArgumentRange.into());
    }
    Ok(view as u8)
}

// The line. Refuses unless length and word are one.
pub(crate) fn check_line(length: u64, word: u64) -> Result<(u8, u64), Refusal>
    ensures { result ≡ if_line length word (Ok (length, word)) }
{
    if length > SLOTS as u64 || !ends_below(word, length as u8) {
        return Err(Ground::ArgumentRange.into());
    }
    Ok((length as u8, word))
}

// The slot. Refuses unless it is from the replica's base length through its length.
pub(crate) fn check_open(r: &Replica, slot: u8) -> Result<u8, Refusal>
    ensures { result ≡ if_open r.now slot (Ok slot) }
{
    if slot < r.base || slot > r.length {
        return Err(Ground::SlotOrView.into());
    }
    Ok(slot)
}

impl<'a, R: Register, S: Service> Bench<'a, R, S> {
    // The replica of the number.
    pub(crate) fn replica(&self, replica: u8) -> Replica
        requires { replica < 16 }
        ensures { result ≡ replica_at (state_of R.Register self.now) replica }
    {
        self.status.replicas[usize::from(replica)]
    }

    // The slot. Refuses unless it is stamped.
    pub(crate) fn check_stamped(&self, slot: u64) -> Result<u8, Refusal>
        ensures ground { result ≡ if_stamped (state_of R.Register self.now) slot (Ok slot) }
        ensures below { IfOk result (λ s. s < 64) }
    {
        if slot >= self.status.operations().len() as u64 {
            return Err(Ground::ArgumentRange.into());
        }
        Ok(slot as u8)
    }

    // The replica's number and the slot. Refuses unless the replica is honest and at work, and the
    // slot is stamped.
    pub(crate) fn check_work(&self, replica: u64, slot: u64) -> Result<(u8, u8), Refusal>
        ensures grounds { let x = state_of R.Register self.now in
            let working = if_working (replica_at x replica) (Ok (replica, slot)) in
            result ≡ if_honest (setup_of self.now.setup) replica (if_stamped x slot working) }
        ensures below { IfOk result (λ checked. (checked.0 < 16) × (checked.1 < 64)) }
    {
        let replica = self.setup.check_honest(replica)?;
        let slot = self.check_stamped(slot)?;
        self.replica(replica).admits(Activity::Work)?;
        Ok((replica, slot))
    }

    // Refuses unless the replica leads the view.
    pub(crate) fn check_leader(&self, replica: u8, view: u8) -> Result<(), Refusal>
        ensures { result ≡ if_leader (setup_of self.now.setup) replica view (Ok tt) }
    {
        if replica != self.setup.leader(view) {
            return Err(Ground::NotLeader.into());
        }
        Ok(())
    }

    // Refuses unless the statement was said.
    pub(crate) fn check_said(&self, statement: &Record) -> Result<(), Refusal>
        ensures { result ≡ if_said (state_of R.Register self.now) statement.now (Ok tt) }
    {
        if !self.register.ask(statement) {
            return Err(Ground::StatementsMissing.into());
        }
        Ok(())
    }

    // Refuses if the statement was said.
    pub(crate) fn check_none(&self, statement: &Record) -> Result<(), Refusal>
        ensures { result ≡ if_none (state_of R.Register self.now) statement.now (Ok tt) }
    {
        if self.register.ask(statement) {
            return Err(Ground::Barred.into());
        }
        Ok(())
    }

    // Refuses unless a quorum said the statement.
    pub(crate) fn check_quorum(&self, statement: &Record) -> Result<(), Refusal>
        ensures { let bench = setup_of self.now.setup in
            result ≡ if_quorum bench (state_of R.Register self.now) statement.now (Ok tt) }
    {
        if !self.setup.members().reached(&*self.register, statement) {
            return Err(Ground::StatementsMissing.into());
        }
        Ok(())
    }

    // Refuses a no-op unless a quorum said DROP for the slot in the view.
    pub(crate) fn check_dropped(&self, view: u8, slot: u8, verdict: Verdict) -> Result<(), Refusal>
        ensures { let bench = setup_of self.now.setup in
            result ≡ if_dropped bench (state_of R.Register self.now) view slot verdict (Ok tt) }
    {
        match verdict {
            Verdict::Operation => Ok(()),
            Verdict::NoOp => self.check_quorum(&Record::drop_by(0, view, slot)),
        }
    }

    // The change to the view.
    pub(crate) fn view_change(&self, target: u8) -> ViewChange
        ensures { let stamped = length self.now.status.operations.items in
            result ≡ change_to (setup_of self.now.setup) stamped target }
    {
        ViewChange {
            members: self.setup.members(),
            stamped: self.status.operations().len() as u8,
            target,
        }
    }
}
