//! The allotment service: the balances of sixteen accounts, granted to and drawn from.
#![tactic(auto)]

ghost use Rattle.std.specs.Prelude.{◌≡◌, ℕ, ◌<◌, List, Option, slice_index};
ghost use Rattle.std.specs.Option.{ok_or};
ghost use Rattle.service.specs.Answers.{answer_of};
ghost use Rattle.service.specs.declared.answer.Unanswered.TheVariants.{OutOfRange};
ghost use Rattle.allotment.specs.Balances.{no_balances, with_balance, allotment_next, allotment_answer};
ghost use Rattle.allotment.specs.Bounds.{allotment_short};

use service::{Service, Unanswered};
use std::marker::Model;

mod operation;

pub use operation::Operation;

/// The allotment service: sixteen balances.
#[derive(Debug, Drop)]
pub struct Allotment {
    balances: [u32; 16],
}

impl Model for Allotment {
    ghost Value = { List ℕ };

    ghost view = { λ s. s.balances };
}

impl Allotment {
    /// An allotment service with every balance 0.
    pub fn new() -> Allotment
        ensures { result ≡ no_balances }
    {
        Allotment { balances: [0; 16] }
    }

    // Makes the balance of an account what `change` makes of it, which is none out of its range.
    fn adjust<F: FnOnce(u32) -> Option<u32>>(
        &mut self,
        account: u8,
        change: F,
    ) -> Result<u64, Unanswered>
        requires account { account < 16 }
        requires callable { F.IsAlwaysCallable change }
        ensures { (o : Option ℕ) × F.post change (slice_index self.old account) o
            × (self.new ≡ with_balance self.old account o) × (result ≡ ok_or o OutOfRange) }
    {
        let balance = &mut self.balances[usize::from(account)];
        *balance = change(*balance).ok_or(Unanswered::OutOfRange)?;
        Ok(u64::from(*balance))
    }

    // Does what the bits ask for, and answers the balance that it leaves.
    fn perform(&mut self, bits: u64) -> Result<u64, Unanswered>
        ensures answer { answer_of result ≡ allotment_answer self.old bits }
        ensures next { self.new ≡ allotment_next self.old bits }
    {
        match Operation::try_from(bits)? {
            Operation::Grant { account, amount } => {
                self.adjust(account, |balance| balance.checked_add(amount))
            }
            Operation::Draw { account, amount } => {
                self.adjust(account, |balance| balance.checked_sub(amount))
            }
        }
    }
}

impl Service for Allotment {
    ghost State = { List ℕ };

    ghost state = { λ s. s };

    ghost fresh = { λ _. no_balances };

    ghost next = { allotment_next };

    ghost answer = { allotment_answer };

    ghost answers_64_bits = { λ _. allotment_short };

    fn apply(&mut self, operation: u64) -> u64 {
        // Written in each service: in the trait, what it calls would be public too.
        self.perform(operation).unwrap_or_else(u64::from)
    }

    fn clear(&mut self) {
        self.balances = [0; 16];
    }
}
