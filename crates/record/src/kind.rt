ghost use Rattle.std.specs.Prelude.{◌≡◌, Some};
ghost use Rattle.record.specs.Kinds.{Named, kind_number, kind_text, unknown_text};

use std::error::Error;
use std::fmt;

/// The kinds of statements.
#[derive(Clone, Copy, Debug, PartialEq, Eq)]
pub enum Kind {
    /// A replica's answer for a slot.
    Reply = 1,
    /// The leader looks for the operation of a slot.
    Find = 2,
    /// A replica has not got the operation of a slot.
    Drop = 3,
    /// The leader's verdict on a slot.
    Decision = 4,
    /// A replica takes up the leader's verdict.
    Prepare = 5,
    /// A replica has seen a quorum take up a verdict.
    Commit = 6,
    /// A replica leaves for a later view.
    ViewChange = 7,
    /// The line with which the leader starts a view.
    ViewStart = 8,
    /// The line with which a replica is ready to enter a view.
    Entry = 9,
}

/// A number that is no kind's.
#[derive(Clone, Copy, Debug, PartialEq, Eq)]
pub struct UnknownKind(pub u8);

impl TryFrom<u8> for Kind {
    type Error = UnknownKind;

    ghost try_from_gives = { Named };

    fn try_from(number: u8) -> Result<Kind, UnknownKind> {
        match number {
            1 => Ok(Kind::Reply),
            2 => Ok(Kind::Find),
            3 => Ok(Kind::Drop),
            4 => Ok(Kind::Decision),
            5 => Ok(Kind::Prepare),
            6 => Ok(Kind::Commit),
            7 => Ok(Kind::ViewChange),
            8 => Ok(Kind::ViewStart),
            9 => Ok(Kind::Entry),
            _ => Err(UnknownKind(number)),
        }
    }
}

/// The number of a kind in a record.
impl From<Kind> for u8 {
    ghost from_gives = { λ k n. n ≡ kind_number k };

    fn from(kind: Kind) -> u8 {
        kind as u8
    }
}

// By hand: a derived text has no contract.
impl fmt::Display for Kind {
    ghost output = { λ k. Some (kind_text k) };

    fn fmt<W: fmt::Write>(&self, f: &mut fmt::Formatter<W>) -> fmt::Result {
        f.write_str(match self {
            Kind::Reply => "REPLY",
            Kind::Find => "FIND",
            Kind::Drop => "DROP",
            Kind::Decision => "DECISION",
            Kind::Prepare => "PREPARE",
            Kind::Commit => "COMMIT",
            Kind::ViewChange => "VIEW-CHANGE",
            Kind::ViewStart => "VIEW-START",
            Kind::Entry => "ENTRY",
        })
    }
}

impl fmt::Display for UnknownKind {
    ghost output = { λ k. Some (unknown_text k) };

    fn fmt<W: fmt::Write>(&self, f: &mut fmt::Formatter<W>) -> fmt::Result {
        let number = self.0;
        write!(f, "no kind of statement has the number {number}")
    }
}

impl Error for UnknownKind {}
