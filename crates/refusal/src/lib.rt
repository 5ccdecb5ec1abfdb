//! Why a call is refused: a ground, which has a number, and a place.
#![tactic(auto)]

ghost use Rattle.std.specs.Prelude.{◌≡◌, Some, Decides, ◌==◌};
ghost use Rattle.refusal.specs.Grounds.{ground_number, refused, text};

use std::error::Error;
use std::fmt;

/// A ground for refusing a call. A call tries its grounds in the order of their numbers.
#[derive(Clone, Copy, Debug, PartialEq, Eq)]
pub enum Ground {
    /// What is to be read as a tape is no whole number of records, one at least; or fewer than 16
    /// bytes are offered for witnesses.
    BufferLength = 1,
    /// A record, or what should be a packed one, does not keep the layout.
    Layout = 2,
    /// f, how many foreign replicas a bench is to bear, is 0 or more than 5.
    FaultBound = 3,
    /// The foreign mask names a replica that there is not, or more than f replicas.
    ForeignMask = 4,
    /// A statement is in the register that a bench is to be opened over.
    RegisterNotEmpty = 5,
    /// There is no replica of this number: it is not below n.
    ReplicaNumber = 6,
    /// The call is for an honest replica and this one is foreign, or in forge the signer is honest.
    Honesty = 7,
    /// There is no such view or length, a word has a bit that it cannot have, or nothing is stamped
    /// at the slot.
    ArgumentRange = 8,
    /// The call is for a replica at work and this one is leaving, or the other way round.
    Mode = 9,
    /// The call is for the leader, and another replica leads.
    NotLeader = 10,
    /// A slot, a target or a view is in range, but the call is not for it.
    SlotOrView = 11,
    /// What the replica did before bars the call: a DROP, the other verdict, or its ENTRY.
    Barred = 12,
    /// The picks are more or fewer than a quorum, or one of them is unfit.
    Picks = 13,
    /// Nothing certifies the base of a merge.
    BaseNotCertified = 14,
    /// The register lacks what the call rests on.
    StatementsMissing = 15,
    /// The merge is not one for which the target's leader said VIEW-START.
    ViewStartMissing = 16,
    /// No slot is left to stamp.
    SlotsExhausted = 17,
    /// A new statement needs a place in the register, and none is free.
    RegisterFull = 18,
}

// What the derived `==` promises: grounds are the same exactly where their numbers are.
fn same(a: Ground, b: Ground) -> bool
    ensures value { result ≡ (ground_number a == ground_number b) }
    ensures meaning { Decides result (a ≡ b) }
{
    a == b
}

impl Ground {
    /// The refusal on this ground, at a place.
    pub fn at(self, place: u64) -> Refusal
        ensures { result ≡ refused self place }
    {
        Refusal {
            ground: self,
            place,
        }
    }
}

/// The number by which a ground is known, from 1 to 18.
impl From<Ground> for u8 {
    ghost from_gives = { λ g n. n ≡ ground_number g };

    fn from(ground: Ground) -> u8 {
        ground as u8
    }
}

/// The refusal on a ground that has no place.
impl From<Ground> for Refusal {
    ghost from_gives = { λ g r. r ≡ refused g 0 };

    fn from(ground: Ground) -> Refusal {
        ground.at(0)
    }
}

/// A refusal: its ground, and the place of what it is about, in a tape or a list; 0 where the
/// ground has no place.
#[derive(Clone, Copy, PartialEq, Eq, Debug)]
pub struct Refusal {
    pub ground: Ground,
    pub place: u64,
}

// By hand: a derived text has no contract.
impl fmt::Display for Refusal {
    ghost output = { λ r. Some (text r) };

    fn fmt<W: fmt::Write>(&self, f: &mut fmt::Formatter<W>) -> fmt::Result {
        let number = u8::from(self.ground);
        let place = self.place;
        write!(f, "refused on ground {number} at place {place}")
    }
}

impl Error for Refusal {}
