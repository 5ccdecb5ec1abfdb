//! Why a life is not run.
ghost use Rattle.std.specs.Prelude.{◌≡◌};
ghost use Rattle.fotsgari_c.specs.Faults.{fault_number};
ghost use Rattle.fotsgari_c.specs.declared.fault.Fault.TheVariants.{Open};

use refusal::Refusal;

/// Why a life is not run.
#[derive(Clone, Copy, Debug)]
pub(crate) enum Fault {
    /// The open is refused.
    Open(Refusal),
    /// There are not as many outcomes as calls.
    Outcomes,
    /// No call has the number.
    CallNumber,
    /// The verdict is neither 0 nor 1.
    Verdict,
    /// A call names records that there are not.
    Records,
    /// There is not enough memory.
    Memory,
}

/// The number that C is told: of a refusal, that of its ground.
impl From<Fault> for u8 {
    ghost from_gives = { λ e n. n ≡ fault_number e };

    fn from(fault: Fault) -> u8 {
        match fault {
            Fault::Open(refusal) => refusal.ground.into(),
            Fault::Outcomes => 101,
            Fault::CallNumber => 102,
            Fault::Verdict => 103,
            Fault::Records => 104,
            Fault::Memory => 105,
        }
    }
}

/// A refused open as a fault.
impl From<Refusal> for Fault {
    ghost from_gives = { λ refusal fault. fault ≡ Open refusal };

    fn from(refusal: Refusal) -> Fault {
        Fault::Open(refusal)
    }
}
