//! Calls, and what comes of them.
ghost use Rattle.std.specs.Prelude.{◌≡◌, None};
ghost use Rattle.life.specs.Calls.{granted_or_refused};

use record::{Record, SIGNERS};
use refusal::Refusal;
use replica::Verdict;

/// A call on an open bench, with its arguments. Any number is allowed in each.
#[derive(Clone, Copy, Debug)]
pub enum Call<'a> {
    /// The operation goes to the lowest slot that is not stamped.
    Stamp {
        operation: u64,
    },
    /// A replica takes up the operation of the slot at the end of its line.
    Deliver {
        replica: u64,
        slot: u64,
    },
    /// The leader looks for the operation of the slot at the end of its line.
    Find {
        replica: u64,
    },
    /// A replica has not got the operation of the slot at the end of its line.
    Drop {
        replica: u64,
    },
    /// The leader decides a slot.
    Decide {
        replica: u64,
        slot: u64,
        verdict: Verdict,
    },
    /// A replica takes up the leader's decision.
    Prepare {
        replica: u64,
        slot: u64,
        verdict: Verdict,
    },
    /// A replica has seen a quorum prepare a verdict.
    Commit {
        replica: u64,
        slot: u64,
        verdict: Verdict,
    },
    /// A replica puts a verdict that a quorum committed into its line.
    Settle {
        replica: u64,
        slot: u64,
        verdict: Verdict,
    },
    /// A replica answers again for a slot of its line.
    Reply {
        replica: u64,
        slot: u64,
    },
    /// A replica leaves for a view.
    Leave {
        replica: u64,
        target: u64,
    },
    /// A foreign replica says anything.
    Forge {
        statement: Record,
    },
    /// The leader of a view starts it with the merge of the picks over a base.
    Lead {
        replica: u64,
        picks: &'a [Record],
        base_length: u64,
        base_word: u64,
    },
    /// A replica is ready to enter a view with the merge of the picks over a base.
    Start {
        replica: u64,
        picks: &'a [Record],
        base_length: u64,
        base_word: u64,
    },
    /// A replica enters a view.
    Enter {
        replica: u64,
        length: u64,
        word: u64,
        view: u64,
    },
    /// Whether an answer is certified. The witness buffer that is offered has `room` bytes.
    Answer {
        room: u64,
        view: u64,
        slot: u64,
        word: u64,
        value: u64,
    },
    /// Whether a no-op is certified. The witness buffer that is offered has `room` bytes.
    NoOp {
        room: u64,
        view: u64,
        slot: u64,
    },
}

/// What comes of a call.
#[derive(Clone, Copy, PartialEq, Eq, Debug)]
pub enum Outcome {
    /// It was granted.
    Granted,
    /// It is certified: the first bytes are a quorum of different replicas that said it, the others
    /// 0.
    Yes([u8; SIGNERS]),
    /// It is not certified.
    No,
    /// It was refused.
    Refused(Refusal),
}

/// A call in its turn, and what came of it.
#[derive(Clone, Copy, Debug)]
pub struct Turn<'a> {
    pub call: Call<'a>,
    /// Nothing as long as the call was not made.
    pub outcome: Option<Outcome>,
}

/// A call whose turn is still to come.
impl<'a> From<Call<'a>> for Turn<'a> {
    ghost from_gives = { λ call turn. turn ≡ record { call = call; outcome = None } };

    fn from(call: Call<'a>) -> Turn<'a> {
        Turn {
            call,
            outcome: None,
        }
    }
}

/// A grant or a refusal as an outcome.
impl From<Result<(), Refusal>> for Outcome {
    ghost from_gives = { λ answer outcome. outcome ≡ granted_or_refused answer };

    fn from(answer: Result<(), Refusal>) -> Outcome {
        match answer {
            Ok(()) => Outcome::Granted,
            Err(refusal) => Outcome::Refused(refusal),
        }
    }
}
