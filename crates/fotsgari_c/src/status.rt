//! What a bench kept, for C.
ghost use Rattle.std.specs.Prelude.{◌≡◌, ◌-◌, ◌≤◌, ◌++◌, length, map, replicate};
ghost use Rattle.fotsgari_c.specs.Told.{replica_for_c, status_for_c};

use record::SIGNERS;
use replica::SLOTS;

/// A replica, with the fields of `replica::Replica`.
#[repr(C)]
#[derive(Clone, Copy, Debug, Default)]
pub struct Replica {
    pub view: u8,
    pub target: u8,
    pub base: u8,
    pub length: u8,
    /// 1 where the mark is set, else 0.
    pub mark: u8,
    pub word: u64,
    pub sealed: u64,
}

/// What a bench kept besides its register and its service.
#[repr(C)]
#[derive(Clone, Copy, Debug)]
pub struct Status {
    /// How many operations are stamped.
    pub stamped: u64,
    /// The operations stamped, that of slot 0 first, and then zeros.
    pub operations: [u64; SLOTS],
    /// The replicas by their numbers. Those that the bench has not got are as they were at the
    /// opening.
    pub replicas: [Replica; SIGNERS],
}

/// The same replica, for C.
impl From<replica::Replica> for Replica {
    ghost from_gives = { λ r c. c ≡ replica_for_c r };

    fn from(r: replica::Replica) -> Replica {
        Replica {
            view: r.view,
            target: r.target,
            base: r.base,
            length: r.length,
            mark: r.mark.into(),
            word: r.word,
            sealed: r.sealed,
        }
    }
}

// The operations, with zeros after them.
fn operations_of(operations: &[u64]) -> [u64; SLOTS]
    requires { length operations.now ≤ 64 }
    ensures { result ≡ operations.now ++ replicate (64 - length operations.now) 0 }
{
    let mut all = [0; SLOTS];
    all[..operations.len()].copy_from_slice(operations);
    all
}

// The same replicas, for C.
#[tactic(auto, using(crate::proofs::Mapping::mapped_more, crate::proofs::Mapping::mapped_all))]
fn replicas_of(replicas: &[replica::Replica]) -> [Replica; SIGNERS]
    requires { length replicas.now ≡ 16 }
    ensures { result ≡ map replica_for_c replicas.now }
{
    let mut all = [Replica::default(); SIGNERS];
    for (i, replica) in all.iter_mut().enumerate() {
        *replica = replicas[i].into();
    }
    all
}

// What the bench kept, for C.
pub(crate) fn status_of(status: &bench::Status) -> Status
    ensures { result ≡ status_for_c status.now }
{
    let replicas = replicas_of(status.replicas());
    let operations = status.operations();
    Status {
        stamped: operations.len() as u64,
        operations: operations_of(operations),
        replicas,
    }
}
