//! What a bench keeps besides its register and its service.
ghost use Rattle.std.specs.Prelude.{◌≡◌, ◌≤◌, length};

use arrayvec::ArrayVec;
use record::SIGNERS;
use replica::{Replica, SLOTS};

/// What a bench keeps besides its register and its service: the operations stamped, and every
/// replica. There is room for 16 replicas; those that the bench has not got stay as they were at
/// the opening.
#[derive(Drop)]
pub struct Status {
    pub(crate) operations: ArrayVec<u64, SLOTS>,
    // A call that changes a replica borrows its element.
    pub(crate) replicas: [Replica; SIGNERS],
}

impl Status {
    /// The operations stamped, that of slot 0 first.
    pub fn operations(&self) -> &[u64]
        ensures operations { result.now ≡ self.now.operations.items }
        ensures few { length result.now ≤ 64 }
    {
        self.operations.as_slice()
    }

    /// The replicas by their numbers.
    pub fn replicas(&self) -> &[Replica]
        ensures replicas { result.now ≡ self.now.replicas }
        ensures sixteen { length result.now ≡ 16 }
    {
        &self.replicas
    }
}
