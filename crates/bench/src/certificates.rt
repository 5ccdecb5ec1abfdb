//! The calls that ask whether an answer or a no-op is certified, and by whom.
ghost use Rattle.std.specs.Prelude.{◌≡◌, ◌≤◌, length};
ghost use Rattle.quorum.specs.Quorums.{said};
ghost use Rattle.protocol.specs.Setup.{members};
ghost use Rattle.protocol.specs.Call.{AskAnswer, AskNoOp};
ghost use Rattle.bench.specs.Setups.{setup_of};
ghost use Rattle.bench.specs.States.{Tries};
ghost use Rattle.bench.specs.Certificates.{Writes, Certifies};

use crate::grounds::check_view;
use crate::open::Bench;
use record::{Record, SIGNERS, ends_below};
use refusal::{Ground, Refusal};
use register::Register;
use replica::Verdict;
use service::Service;

impl<'a, R: Register, S: Service> Bench<'a, R, S> {
    // Whether a quorum said the statement. If so, it stands in the first bytes of the buffer.
    fn certify(&self, witnesses: &mut [u8], statement: &Record) -> bool
        requires { 16 ≤ length witnesses.old }
        ensures { let passes = said (R.held self.now.register.now) statement.now in
            let members = members (setup_of self.now.setup) in
            Writes members passes witnesses.old result witnesses.new }
    {
        let members = self.setup.members();
        match members.witnesses(&*self.register, statement) {
            Some(found) => {
                let q = usize::from(members.quorum);
                witnesses[..q].copy_from_slice(&found[..q]);
                true
            }
            None => false,
        }
    }

    // The view and the slot, or the grounds against asking for a no-op with a buffer of so many
    // bytes.
    fn may_no_op(&self, room: usize, view: u64, slot: u64) -> Result<(u8, u8), Refusal>
        ensures { let call = AskNoOp room view slot in
            Tries R.Register S.Service self.now call (view, slot) result }
    {
        if room < SIGNERS {
            return Err(Ground::BufferLength.into());
        }
        let view = check_view(view)?;
        let slot = self.check_stamped(slot)?;
        Ok((view, slot))
    }

    // The view and the slot, or the grounds against asking for an answer with a buffer of so many
    // bytes.
    fn may_answer(&self, room: usize, view: u64, slot: u64, word: u64) -> Result<(u8, u8), Refusal>
        ensures { let call = AskAnswer room view slot word 0 in
            Tries R.Register S.Service self.now call (view, slot) result }
    {
        let (view, slot) = self.may_no_op(room, view, slot)?;
        if !ends_below(word, slot) {
            return Err(Ground::ArgumentRange.into());
        }
        Ok((view, slot))
    }

    /// Whether the answer `value` for the slot in the view, with the word of the no-ops below the
    /// slot, is certified: whether a quorum said that REPLY. If so, a quorum of different replicas
    /// that said it stands in the first bytes of the buffer, which has to have at least 16 bytes.
    /// It changes nothing else. Refused on grounds 1 and 8.
    pub fn answer(
        &self,
        witnesses: &mut [u8],
        view: u64,
        slot: u64,
        word: u64,
        value: u64,
    ) -> Result<bool, Refusal>
        ensures { let call = AskAnswer (length witnesses.old) view slot word value in
            Certifies R.Register S.Service self.now call witnesses.old result witnesses.new }
    {
        let (view, slot) = self.may_answer(witnesses.len(), view, slot, word)?;
        Ok(self.certify(witnesses, &Record::reply_by(0, view, slot, word, value)))
    }

    /// Whether the no-op of the slot in the view is certified: whether a quorum said COMMIT of
    /// no-op there. If so, a quorum of different replicas that said it stands in the first bytes of
    /// the buffer, which has to have at least 16 bytes. It changes nothing else. Refused on grounds
    /// 1 and 8.
    pub fn no_op(&self, witnesses: &mut [u8], view: u64, slot: u64) -> Result<bool, Refusal>
        ensures { let call = AskNoOp (length witnesses.old) view slot in
            Certifies R.Register S.Service self.now call witnesses.old result witnesses.new }
    {
        let (view, slot) = self.may_no_op(witnesses.len(), view, slot)?;
        let statement = Record::commit_by(0, view, slot, Verdict::NoOp.into());
        Ok(self.certify(witnesses, &statement))
    }
}
