//! The call reply.
ghost use Rattle.std.specs.Prelude.{◌≡◌, ◌<◌, ◌%◌, ◌^◌, IfOk};
ghost use Rattle.bench.specs.States.{Tries, Does};
ghost use Rattle.protocol.specs.Call.{Reply};

use crate::open::Bench;
use record::Record;
use refusal::{Ground, Refusal};
use register::Register;
use replica::bit;
use service::Service;

// The bits of the word below the slot.
fn below(word: u64, slot: u8) -> u64
    requires { slot < 64 }
    ensures { result ≡ word % 2 ^ slot }
{
    word % (1 << slot)
}

impl<'a, R: Register, S: Service> Bench<'a, R, S> {
    // The replica's number and the slot, or the grounds against the call, but for the register's
    // own.
    fn may_reply(&self, replica: u64, slot: u64) -> Result<(u8, u8), Refusal>
        ensures grounds { let call = Reply replica slot in
            Tries R.Register S.Service self.now call (replica, slot) result }
        ensures below { IfOk result (λ checked. checked.1 < 64) }
    {
        let (replica, slot) = self.check_work(replica, slot)?;
        let r = self.replica(replica);
        if slot >= r.length || bit(r.word, slot) {
            return Err(Ground::SlotOrView.into());
        }
        Ok((replica, slot))
    }

    /// Replica `replica` says its answer for a slot of its line that has an operation. Refused on
    /// grounds 6 to 9, 11 and 18.
    pub fn reply(&mut self, replica: u64, slot: u64) -> Result<(), Refusal>
        ensures { Does R.Register S.Service self.old (Reply replica slot) result self.new }
    {
        let (replica, slot) = self.may_reply(replica, slot)?;
        let r = self.replica(replica);
        let answer = self.answer_along(r.word, slot);
        let word = below(r.word, slot);
        self.register
            .enter(&Record::reply_by(replica, r.view, slot, word, answer))
    }
}
