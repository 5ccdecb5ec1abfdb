//! Counting who said a statement, over every register. Quorums are counted here and nowhere else.
#![tactic(auto)]

ghost use Rattle.std.specs.Prelude.{◌≡◌, ◌<◌, true};
ghost use Rattle.quorum.specs.Quorums.{signed_by, said, count, quorum, Finds, FindsNext};

use record::{Record, SIGNERS};
use register::Register;
use std::ops::Range;

// The statement, said by another signer.
fn signed_by(statement: &Record, signer: u8) -> Record
    ensures { result ≡ signed_by statement.now signer }
{
    Record {
        signer,
        ..*statement
    }
}

// Whether a replica said the statement. Only a number below 16 can be a signer's.
fn said<R: Register>(register: &R, statement: &Record, replica: u8) -> bool
    ensures said { result ≡ said (R.held register.now) statement.now replica }
    ensures below { result ≡ true → replica < 16 }
{
    register.ask(&signed_by(statement, replica))
}

// The numbers of `n` replicas.
fn numbers(n: u8) -> Range<u8>
    ensures { result ≡ record { start = 0; end = n } }
{
    0..n
}

// The next replica in the range that said the statement; the range goes on after it.
fn next_sayer<R: Register>(register: &R, statement: &Record, replicas: &mut Range<u8>) -> Option<u8>
    ensures { let passes = said (R.held register.now) statement.now in
        FindsNext passes replicas.old replicas.new result }
{
    replicas.find(|&replica| said(register, statement, replica))
}

/// How many of the replicas below `n` said the statement, each under its own number.
pub fn count<R: Register>(register: &R, statement: &Record, n: u8) -> u8
    ensures { result ≡ count n (said (R.held register.now) statement.now) }
{
    numbers(n)
        .filter(|&signer| said(register, statement, signer))
        .count() as u8
}

/// The replicas of a ledger. Any two numbers will do: a quorum that cannot be reached is not
/// reached.
#[derive(Clone, Copy, PartialEq, Eq, Debug)]
pub struct Membership {
    /// How many replicas there are, numbered from 0.
    pub replicas: u8,
    /// How many of them are a quorum.
    pub quorum: u8,
}

impl Membership {
    /// A quorum of different replicas that said the statement, in the first `quorum` bytes; the
    /// others are 0. Nothing if fewer said it.
    // An array: 16 bytes are what is promised, and the membership has the number of witnesses.
    #[tactic(auto, using(crate::proofs::Finding::found_few, crate::proofs::Finding::found_enough))]
    pub fn witnesses<R: Register>(self, register: &R, statement: &Record) -> Option<[u8; SIGNERS]>
        ensures { let passes = said (R.held register.now) statement.now in
            Finds self.replicas self.quorum passes result }
    {
        let mut replicas = numbers(self.replicas);
        let mut found = [0; SIGNERS];
        // By place, not over the first `quorum` bytes: that 16 are enough shows only by asking.
        for place in 0..usize::from(self.quorum) {
            found[place] = next_sayer(register, statement, &mut replicas)?;
        }
        Some(found)
    }

    /// Whether a quorum said the statement.
    pub fn reached<R: Register>(self, register: &R, statement: &Record) -> bool
        ensures { result ≡ quorum (R.held register.now) self statement.now }
    {
        self.witnesses(register, statement).is_some()
    }
}
