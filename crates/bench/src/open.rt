//! A bench, and opening one.
ghost use Rattle.std.specs.Prelude.{◌≡◌};
ghost use Rattle.bench.specs.Setups.{setup_of};
ghost use Rattle.bench.specs.Opening.{Opened, Opens};

use crate::setup::Setup;
use crate::status::Status;
use arrayvec::ArrayVec;
use record::SIGNERS;
use refusal::Refusal;
use register::Register;
use replica::Replica;
use service::Service;

/// A bench: the replicas, and what is stamped, over one register and one service, which are lent to
/// it for as long as it is there.
#[derive(Drop)]
pub struct Bench<'a, R, S> {
    pub(crate) setup: Setup,
    pub(crate) status: Status,
    pub(crate) register: &'a mut R,
    pub(crate) service: &'a mut S,
}

/// An open that was refused: why, and what was lent for it, handed back as it was.
#[derive(Drop)]
pub struct Unopened<'a, R, S> {
    /// By ground 3, 4 or 5, at place 0.
    pub refusal: Refusal,
    pub register: &'a mut R,
    pub service: &'a mut S,
}

/// Why it was refused.
impl<'a, R, S> From<Unopened<'a, R, S>> for Refusal {
    ghost from_gives = { λ unopened refusal. refusal ≡ unopened.refusal };

    fn from(unopened: Unopened<'a, R, S>) -> Refusal {
        unopened.refusal
    }
}

impl<'a, R: Register, S: Service> Bench<'a, R, S> {
    // A bench on which nothing is stamped, and every replica is as at opening.
    fn new(setup: Setup, register: &'a mut R, service: &'a mut S) -> Bench<'a, R, S>
        ensures { Opened R.Register (setup_of setup) register.entry service.entry result }
    {
        Bench {
            setup,
            status: Status {
                operations: ArrayVec::new(),
                replicas: [Replica::new(); SIGNERS],
            },
            register,
            service,
        }
    }

    /// Opens a bench over an empty register: nothing is stamped, and every replica is as at
    /// opening. It is refused on the grounds that `Setup::check` tries, and then the register and
    /// the service come back as they were.
    pub fn open(
        f: u64,
        foreign: u64,
        register: &'a mut R,
        service: &'a mut S,
    ) -> Result<Bench<'a, R, S>, Unopened<'a, R, S>>
        ensures { Opens R.Register (record { f = f; mask = foreign })
            register.entry service.entry result }
    {
        match Setup::check(f, foreign, &*register) {
            Ok(setup) => Ok(Bench::new(setup, register, service)),
            Err(refusal) => Err(Unopened {
                refusal,
                register,
                service,
            }),
        }
    }

    /// Who the replicas are.
    pub fn setup(&self) -> Setup
        ensures { result ≡ self.now.setup }
    {
        self.setup
    }

    /// What it keeps besides its register and its service.
    pub fn status(&self) -> &Status
        ensures { result.now ≡ self.now.status }
    {
        &self.status
    }

    /// The register.
    pub fn register(&self) -> &R
        ensures { result.now ≡ self.now.register.now }
    {
        self.register
    }

    /// Ends the bench, and hands out what it kept.
    pub fn close(self) -> Status
        // At its end the fields are pairs: 1.1.0 is the register, 1.1.1.0 the service.
        ensures status { result ≡ self.entry.status }
        ensures register { self.exit.1.1.0.now ≡ self.entry.register.now }
        ensures service { self.exit.1.1.1.0.now ≡ self.entry.service.now }
    {
        let Bench { status, .. } = self;
        status
    }
}
