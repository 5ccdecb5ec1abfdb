//! One honest replica: what it holds, what its mode allows, and what each call makes of it.
#![tactic(auto)]

mod line;
mod verdicts;
mod view;
mod word;

pub use word::bit;

/// The number of slots: the length of a full line, and the number of a word's bits.
pub const SLOTS: usize = 64;

/// The verdict on a slot.
#[derive(Clone, Copy, PartialEq, Eq, Debug)]
pub enum Verdict {
    /// The slot has the operation that is stamped there.
    Operation = 0,
    /// The slot's operation is passed over.
    NoOp = 1,
}

/// Whether a replica takes part in its view.
#[derive(Clone, Copy, PartialEq, Eq, Debug)]
pub enum Mode {
    /// The target is the view: the replica takes part in it.
    AtWork,
    /// The target is above the view: the replica takes no part in its view any more.
    Leaving,
}

/// What a call has a replica do, as far as its mode tells calls apart.
#[derive(Clone, Copy, PartialEq, Eq, Debug)]
pub enum Activity {
    /// To take part in its view: deliver, find, drop, decide, prepare, commit, settle, reply.
    Work,
    /// To leave for a later view.
    Leave,
    /// To start its target, by VIEW-START or by ENTRY.
    Start,
    /// To enter a view.
    Enter,
}

/// What an honest replica holds. Every number is 0 when a bench opens.
// The mark is a field beside the target, though only a leaving replica has a use for it.
#[derive(Clone, Copy, Default, PartialEq, Eq, Debug)]
pub struct Replica {
    /// The view that it entered last.
    pub view: u8,
    /// The view that it is on its way to; its view while it is at work.
    pub target: u8,
    /// The length of the line with which it entered its view.
    pub base: u8,
    /// The length of its line.
    pub length: u8,
    /// The word of its line: which slots of it are no-ops.
    pub word: u64,
    /// The sealed word: the no-ops that it committed or settled in its view.
    pub sealed: u64,
    /// Set when it said ENTRY for its target, so that it says none with another line.
    pub mark: bool,
}
