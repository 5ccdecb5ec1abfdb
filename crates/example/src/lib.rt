//! A life of a bench written out: its calls, what comes of each, and what they certify.
//!
//! The calls stand in `specs/WrittenOut.antt`. The contract of the one function here shows that the
//! rules and the law of the crate `protocol` speak of something.
#![tactic(auto)]

ghost use Rattle.example.specs.WrittenOut.{OutcomesHold, LinesHold, CertifiedAtEnd};

// The operations that the example stamps, that of slot 0 first.
const STAMPED: [u64; 3] = [5, 6, 7];

/// The answers that are certified in the example for slots 0 and 2. Its service answers the sum of
/// what it was fed and the operation; slot 1 is a no-op, so its operation is fed to none.
#[tactic(auto, using(crate::proofs::WrittenOut::outcomes_hold, crate::proofs::WrittenOut::lines_hold, crate::proofs::WrittenOut::certified_at_end))]
pub fn written_out() -> (u64, u64)
    ensures outcomes { OutcomesHold }
    ensures lines { LinesHold }
    ensures certified { CertifiedAtEnd result.0 result.1 }
{
    (STAMPED[0], STAMPED[0] + STAMPED[2])
}
