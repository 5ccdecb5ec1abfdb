//! Outcomes for C.
ghost use Rattle.std.specs.Prelude.{◌≡◌, length, map};
ghost use Rattle.fotsgari_c.specs.Told.{outcome_with, outcome_for_c};

use life::Turn;
use record::SIGNERS;

/// What came of a call.
#[repr(C)]
#[derive(Clone, Copy, Debug)]
pub struct Outcome {
    /// 1 granted, 2 yes, 3 no, 4 refused; 0 where the call was not made.
    pub kind: u8,
    /// Where it was refused the number of the ground, else 0.
    pub ground: u8,
    /// Where it is yes a quorum of different replicas that said it, and then zeros; else zeros.
    pub witnesses: [u8; SIGNERS],
    /// Where it was refused the place, else 0.
    pub place: u64,
}

// An outcome with these fields.
fn outcome_with(kind: u8, ground: u8, witnesses: [u8; SIGNERS], place: u64) -> Outcome
    ensures { result ≡ outcome_with kind ground witnesses place }
{
    Outcome {
        kind,
        ground,
        witnesses,
        place,
    }
}

/// What came of a call, if it was made.
impl From<Option<life::Outcome>> for Outcome {
    ghost from_gives = { λ o c. c ≡ outcome_for_c o };

    fn from(outcome: Option<life::Outcome>) -> Outcome {
        let none = [0; SIGNERS];
        match outcome {
            None => outcome_with(0, 0, none, 0),
            Some(life::Outcome::Granted) => outcome_with(1, 0, none, 0),
            Some(life::Outcome::Yes(witnesses)) => outcome_with(2, 0, witnesses, 0),
            Some(life::Outcome::No) => outcome_with(3, 0, none, 0),
            Some(life::Outcome::Refused(e)) => outcome_with(4, e.ground.into(), none, e.place),
        }
    }
}

// Writes what came of every call.
#[tactic(auto, using(crate::proofs::Mapping::mapped_more, crate::proofs::Mapping::mapped_all))]
pub(crate) fn tell(turns: &[Turn<'_>], outcomes: &mut [Outcome])
    requires { length outcomes.old ≡ length turns.now }
    ensures { outcomes.new ≡ map (λ t. outcome_for_c t.outcome) turns.now }
{
    for (i, outcome) in outcomes.iter_mut().enumerate() {
        *outcome = turns[i].outcome.into();
    }
}
