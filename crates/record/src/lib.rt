//! Statements as records, and records as 20 bytes.
#![tactic(auto)]

mod kind;
mod layout;
mod pack;
mod statement;
mod tape;

pub use kind::{Kind, UnknownKind};
pub use layout::ends_below;
pub use tape::{Part, Reader, part_at};

/// The number of bytes that a record is packed into.
pub const SIZE: usize = 20;

/// The greatest number of signers: a packed record has four bits for the signer, so no more than
/// 16 replicas can say a statement.
pub const SIGNERS: usize = 16;

/// A record: the fields of a statement as plain numbers, which may break the layout.
// Numbers, also for kind and verdict: any number in a field has to meet a refusal.
#[repr(C)]
#[derive(Clone, Copy, Debug, Default, PartialEq, Eq)]
pub struct Record {
    /// The number of its kind.
    pub kind: u8,
    /// The replica that says it.
    pub signer: u8,
    /// The view it is about; in a VIEW-CHANGE the target.
    pub view: u8,
    /// In a VIEW-CHANGE the view that its signer is leaving.
    pub last: u8,
    /// The slot; in a VIEW-CHANGE the reach, in a VIEW-START or an ENTRY the length of a line.
    pub slot: u8,
    /// 0 for operation, 1 for no-op.
    pub verdict: u8,
    /// The no-ops that it tells of, one bit for each slot: that of slot l is worth 2^l.
    pub word: u64,
    /// In a REPLY: the answer.
    pub result: u64,
}
