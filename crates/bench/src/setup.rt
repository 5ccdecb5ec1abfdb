//! Who the replicas of a bench are, and the grounds against opening one.
ghost use Rattle.std.specs.Prelude.{◌≡◌, ◌≤◌, ◌<◌, Ok, IfOk};

use quorum::Membership;
use refusal::{Ground, Refusal};
use register::Register;
use replica::bit;

/// Who the replicas of a bench are: checked, so that a bench can be opened with it.
#[derive(Clone, Copy, PartialEq, Eq, Debug)]
pub struct Setup {
    // How many foreign replicas the bench bears.
    f: u8,
    // Bit i is set where replica i is foreign.
    foreign: u64,
    ghost few: { f ≤ 5 },
}

impl Setup {
    ghost use Rattle.protocol.specs.Setup.{members, leader};
    ghost use Rattle.protocol.specs.Grounds.{if_honest, if_foreign};
    ghost use Rattle.bench.specs.Setups.{setup_of, Checks};

    /// Tries the grounds against an open, in the order of their numbers. The register is only asked
    /// whether it is empty.
    pub fn check<R: Register>(f: u64, foreign: u64, register: &R) -> Result<Setup, Refusal>
        ensures { Checks (record { f = f; mask = foreign }) (R.held register.now) result }
    {
        if !(1..=5).contains(&f) {
            return Err(Ground::FaultBound.into());
        }
        let setup = Setup {
            f: f as u8,
            foreign,
        };
        if foreign >> setup.members().replicas != 0 || foreign.count_ones() > u32::from(setup.f) {
            return Err(Ground::ForeignMask.into());
        }
        if !register.is_empty() {
            return Err(Ground::RegisterNotEmpty.into());
        }
        Ok(setup)
    }

    /// How many replicas there are, and how many of them are a quorum.
    pub fn members(self) -> Membership
        ensures { result ≡ members (setup_of self) }
    {
        Membership {
            replicas: 3 * self.f + 1,
            quorum: 2 * self.f + 1,
        }
    }

    // The leader of the view.
    pub(crate) fn leader(self, view: u8) -> u8
        ensures { result ≡ leader (setup_of self) view }
    {
        view % self.members().replicas
    }

    // The replica's number. Refuses unless there is a replica of the number, and it is honest.
    pub(crate) fn check_honest(self, replica: u64) -> Result<u8, Refusal>
        ensures grounds { result ≡ if_honest (setup_of self) replica (Ok replica) }
        ensures below { IfOk result (λ checked. checked < 16) }
    {
        if replica >= u64::from(self.members().replicas) {
            return Err(Ground::ReplicaNumber.into());
        }
        let replica = replica as u8;
        if bit(self.foreign, replica) {
            return Err(Ground::Honesty.into());
        }
        Ok(replica)
    }

    // Refuses unless there is a replica of the number, and it is foreign.
    pub(crate) fn check_foreign(self, replica: u8) -> Result<(), Refusal>
        ensures { result ≡ if_foreign (setup_of self) replica (Ok tt) }
    {
        if replica >= self.members().replicas {
            return Err(Ground::ReplicaNumber.into());
        }
        if !bit(self.foreign, replica) {
            return Err(Ground::Honesty.into());
        }
        Ok(())
    }
}
