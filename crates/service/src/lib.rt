//! What a service is: a state that operations of 64 bits change, with an answer of 64 bits to each.
#![tactic(auto)]

ghost use Rattle.std.specs.Prelude.{◌≡◌, ◌<◌, ◌^◌, ℕ, List};
ghost use Rattle.service.specs.Operations.{after};

mod answer;

pub use answer::{MALFORMED, OUT_OF_RANGE, Unanswered, Unencodable, UnknownOperation, figure};

/// A service: it has a state, from which, with an operation, follow the answer and the next state.
pub trait Service {
    // The states that services of this type can be in.
    ghost State: { Type 0 };

    // The state that a service is in.
    ghost state: { Self → State };

    // The fresh state of a state's kind. Services are of one kind where this is the same.
    ghost fresh: { State → State };

    // The state after an operation.
    ghost next: { State → ℕ → State };

    // The answer to an operation.
    ghost answer: { State → ℕ → ℕ };

    /// Applies an operation. None is refused.
    fn apply(&mut self, operation: u64) -> u64
        ensures answers { result ≡ answer (state self.old) operation }
        ensures moves { state self.new ≡ next (state self.old) operation }
        ensures same_kind { fresh (state self.new) ≡ fresh (state self.old) };

    /// Brings the fresh state of the service's kind.
    fn clear(&mut self)
        ensures freshens { state self.new ≡ fresh (state self.old) }
        ensures same_kind { fresh (state self.new) ≡ fresh (state self.old) };

    // Whatever operations it was fed since it was cleared, it answers 64 bits.
    ghost answers_64_bits: { (s : State) (ops : List ℕ) (op : ℕ) →
        answer (after next (fresh s) ops) op < 2 ^ 64 };
}
