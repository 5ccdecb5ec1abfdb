//! The nine statements, each as the record that its signer says.
ghost use Rattle.std.specs.Prelude.{◌≡◌};
ghost use Rattle.record.specs.Statements.{reply_by, find_by, drop_by, decision_by, prepare_by, commit_by, view_change_by, view_start_by, entry_by};

use crate::{Kind, Record};

// Plain arguments, as a statement has them: any number is taken, also one that breaks the layout.
impl Record {
    /// REPLY: the signer's answer for the slot, where the word has the no-ops below the slot.
    pub fn reply_by(signer: u8, view: u8, slot: u8, word: u64, answer: u64) -> Record
        ensures { result ≡ reply_by signer view slot word answer }
    {
        Record {
            kind: Kind::Reply.into(),
            signer,
            view,
            slot,
            word,
            result: answer,
            ..Record::default()
        }
    }

    /// FIND: the leader looks for the operation of the slot.
    pub fn find_by(signer: u8, view: u8, slot: u8) -> Record
        ensures { result ≡ find_by signer view slot }
    {
        Record {
            kind: Kind::Find.into(),
            signer,
            view,
            slot,
            ..Record::default()
        }
    }

    /// DROP: the signer has not got the operation of the slot.
    pub fn drop_by(signer: u8, view: u8, slot: u8) -> Record
        ensures { result ≡ drop_by signer view slot }
    {
        Record {
            kind: Kind::Drop.into(),
            signer,
            view,
            slot,
            ..Record::default()
        }
    }

    /// DECISION: the leader's verdict on the slot, 0 for operation and 1 for no-op.
    pub fn decision_by(signer: u8, view: u8, slot: u8, verdict: u8) -> Record
        ensures { result ≡ decision_by signer view slot verdict }
    {
        Record {
            kind: Kind::Decision.into(),
            signer,
            view,
            slot,
            verdict,
            ..Record::default()
        }
    }

    /// PREPARE: the signer takes up the verdict on the slot.
    pub fn prepare_by(signer: u8, view: u8, slot: u8, verdict: u8) -> Record
        ensures { result ≡ prepare_by signer view slot verdict }
    {
        Record {
            kind: Kind::Prepare.into(),
            signer,
            view,
            slot,
            verdict,
            ..Record::default()
        }
    }

    /// COMMIT: the signer has seen a quorum take up the verdict on the slot.
    pub fn commit_by(signer: u8, view: u8, slot: u8, verdict: u8) -> Record
        ensures { result ≡ commit_by signer view slot verdict }
    {
        Record {
            kind: Kind::Commit.into(),
            signer,
            view,
            slot,
            verdict,
            ..Record::default()
        }
    }

    /// VIEW-CHANGE: the signer leaves the view `last` for the view `target`, with its reach and
    /// its sealed word.
    pub fn view_change_by(signer: u8, target: u8, last: u8, reach: u8, word: u64) -> Record
        ensures { result ≡ view_change_by signer target last reach word }
    {
        Record {
            kind: Kind::ViewChange.into(),
            signer,
            view: target,
            last,
            slot: reach,
            word,
            ..Record::default()
        }
    }

    /// VIEW-START: the leader starts the view with a line.
    pub fn view_start_by(signer: u8, view: u8, line: (u8, u64)) -> Record
        ensures { result ≡ view_start_by signer view line.0 line.1 }
    {
        Record {
            kind: Kind::ViewStart.into(),
            signer,
            view,
            slot: line.0,
            word: line.1,
            ..Record::default()
        }
    }

    /// ENTRY: the signer is ready to enter the view with a line.
    pub fn entry_by(signer: u8, view: u8, line: (u8, u64)) -> Record
        ensures { result ≡ entry_by signer view line.0 line.1 }
    {
        Record {
            kind: Kind::Entry.into(),
            signer,
            view,
            slot: line.0,
            word: line.1,
            ..Record::default()
        }
    }
}
