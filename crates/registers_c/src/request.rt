//! Requests to a register.
ghost use Rattle.std.specs.Prelude.{◌≡◌, cond};
ghost use Rattle.registers_c.specs.Requests.{entering_outcome, entering_value, Serves, ServesAll};

use quorum::count;
use record::Record;
use refusal::Refusal;
use register::Register;

/// A request to a register, and what came of it.
#[repr(C)]
#[derive(Clone, Copy, Debug)]
pub struct Request {
    /// The statement that is asked for, entered or counted.
    pub statement: Record,
    /// 1 to ask, 2 to look whether the register is empty, 3 to enter, 4 to count.
    pub number: u8,
    /// To count: how many replicas there are, numbered from 0.
    pub replicas: u8,
    /// 1 granted, 2 yes, 3 no, 4 refused, 5 counted; 0 where no request has the number.
    pub outcome: u8,
    /// Where it was refused the number of the ground, where it was counted how many, else 0.
    pub value: u8,
}

// The outcome of a question.
fn outcome_of_ask(yes: bool) -> (u8, u8)
    ensures { result ≡ (cond yes 2 3, 0) }
{
    (if yes { 2 } else { 3 }, 0)
}

// The outcome of entering.
fn outcome_of_enter(answer: Result<(), Refusal>) -> (u8, u8)
    ensures { result ≡ (entering_outcome answer, entering_value answer) }
{
    match answer {
        Ok(()) => (1, 0),
        Err(refusal) => (4, refusal.ground.into()),
    }
}

// Makes a request: its outcome and its value.
fn make<R: Register>(register: &mut R, request: &Request) -> (u8, u8)
    ensures { Serves R.Register register.old request.now result register.new }
{
    match request.number {
        1 => outcome_of_ask(register.ask(&request.statement)),
        2 => outcome_of_ask(register.is_empty()),
        3 => outcome_of_enter(register.enter(&request.statement)),
        4 => (5, count(register, &request.statement, request.replicas)),
        _ => (0, 0),
    }
}

// Makes every request in its turn.
pub(crate) fn use_register<R: Register>(register: &mut R, requests: &mut [Request])
    ensures { ServesAll R.Register register.old requests.old requests.new register.new }
{
    for request in requests.iter_mut() {
        let (outcome, value) = make(register, request);
        request.outcome = outcome;
        request.value = value;
    }
}
