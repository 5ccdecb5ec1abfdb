//! What a service answers along a word.
ghost use Rattle.std.specs.Prelude.{◌≡◌, ◌<◌, length};
ghost use Rattle.bench.specs.States.{service_of, kind_of};
ghost use Rattle.protocol.specs.Service.{book, answer_at};

use crate::open::Bench;
use register::Register;
use service::Service;

// Clears the service, feeds it the operations below the slot but for the word's no-ops, and answers
// what it gives for the operation of the slot.
#[tactic(auto, using(crate::proofs::Feeding::fed_none, crate::proofs::Feeding::answered))]
fn answer_along<S: Service>(service: &mut S, operations: &[u64], word: u64, slot: u8) -> u64
    requires { slot < length operations.now }
    ensures answer { let stamped = book operations.now in
        result ≡ answer_at (service_of S.Service service.old) stamped word slot }
    ensures kind { kind_of S.Service service.new ≡ kind_of S.Service service.old }
{
    service.clear();
    // The word from the bit of slot l on.
    let mut later = word;
    for l in 0..slot {
        let no_op = later % 2 == 1;
        later /= 2;
        if no_op {
            continue;
        }
        service.apply(operations[usize::from(l)]);
    }
    service.apply(operations[usize::from(slot)])
}

impl<'a, R: Register, S: Service> Bench<'a, R, S> {
    // What the bench's service answers for the slot along the word.
    pub(crate) fn answer_along(&mut self, word: u64, slot: u8) -> u64
        requires { slot < length self.old.status.operations.items }
        ensures answer { let stamped = book self.old.status.operations.items in
            result ≡ answer_at (service_of S.Service self.old.service.now) stamped word slot }
        ensures kind { kind_of S.Service self.new.service.now
            ≡ kind_of S.Service self.old.service.now }
        ensures status { self.new.status ≡ self.old.status }
        ensures setup { self.new.setup ≡ self.old.setup }
        ensures register { self.new.register ≡ self.old.register }
        ensures lent { self.new.service.ghost_name ≡ self.old.service.ghost_name }
    {
        answer_along(self.service, self.status.operations(), word, slot)
    }
}
