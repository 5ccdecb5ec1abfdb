ghost use Rattle.std.specs.Prelude.{◌≡◌, ◌<◌, [], ◌++◌, option_map};
ghost use Rattle.std.specs.Option.{option_to_list};
ghost use Rattle.service.specs.Answers.{answer_of};
ghost use Rattle.rating.specs.Curves.{Curves, flow, deciding, loaded};
ghost use Rattle.rating.specs.Rating.{curves_of, rating_next, rating_answer};

use crate::curve::Curve;
use crate::operation::Operation;
use crate::state::Rating;
use arrayvec::ArrayVec;
use service::{Service, Unanswered};
use std::mem;

// Puts a curve first. Those before the one of its number move by a place, and that one goes; where
// there is none, all move, and the last is left over.
#[tactic(auto, using(crate::proofs::Moving::moving_none, crate::proofs::Moving::moving_one, crate::proofs::Moving::moved_one, crate::proofs::Moving::moved_all))]
fn put_first(curves: &mut [Curve], curve: Curve) -> Option<Curve>
    ensures { curves.new ++ option_to_list result ≡ loaded curve curves.old }
{
    let mut moved = curve;
    for held in curves.iter_mut() {
        moved = mem::replace(held, moved);
        if moved.number == curve.number {
            return None;
        }
    }
    Some(moved)
}

impl Rating {
    /// A rating service in which no curve is loaded.
    pub fn new() -> Rating
        ensures { curves_of result ≡ [] }
    {
        Rating {
            curves: ArrayVec::new(),
        }
    }

    // Loads a curve.
    fn load(&mut self, curve: Curve)
        requires { curve.number < 8 }
        ensures { curves_of self.new ≡ loaded curve (curves_of self.old) }
    {
        if let Some(last) = put_first(self.curves.as_mut_slice(), curve) {
            self.curves.push(last);
        }
    }

    // The flow at a stage, by the curve that decides.
    fn read(&self, stage: u16) -> Option<u64>
        ensures { result ≡ option_map (λ c. flow c stage) (deciding stage (curves_of self.now)) }
    {
        self.curves
            .iter()
            .find(|curve| curve.holds(stage))
            .map(|curve| curve.flow(stage))
    }

    // Does what the bits ask for.
    fn perform(&mut self, bits: u64) -> Result<u64, Unanswered>
        ensures answer { answer_of result ≡ rating_answer (curves_of self.old) bits }
        ensures next { curves_of self.new ≡ rating_next (curves_of self.old) bits }
    {
        match Operation::try_from(bits)? {
            Operation::Load(curve) => {
                self.load(curve);
                Ok(0)
            }
            Operation::Read(stage) => self.read(stage).ok_or(Unanswered::OutOfRange),
        }
    }
}

impl Service for Rating {
    ghost use Rattle.rating.specs.Bounds.{rating_short};

    ghost State = { Curves };

    ghost state = { curves_of };

    ghost fresh = { λ _. [] };

    ghost next = { rating_next };

    ghost answer = { rating_answer };

    ghost answers_64_bits = { λ _. rating_short };

    #[inline]
    fn apply(&mut self, operation: u64) -> u64 {
        // Written in each service: in the trait, what it calls would be public too.
        self.perform(operation).unwrap_or_else(u64::from)
    }

    fn clear(&mut self) {
        self.curves.clear();
    }
}
