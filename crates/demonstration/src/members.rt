//! The replicas of every part of this program.
use quorum::Membership;

/// How many foreign replicas a bench bears here.
pub const F: u8 = 1;

/// How many replicas there are, and how many of them are a quorum.
pub const MEMBERS: Membership = Membership {
    replicas: 3 * F + 1,
    quorum: 2 * F + 1,
};
