//! Running a life.
ghost use Rattle.std.specs.Prelude.{◌≡◌, IfOk, OnErr, length};
ghost use Rattle.std.specs.List.{fold};
ghost use Rattle.protocol.specs.State.{opened};
ghost use Rattle.protocol.specs.Life.{additions};
ghost use Rattle.bench.specs.States.{service_of, kind_of};
ghost use Rattle.life.specs.Calls.{calls_of};
ghost use Rattle.life.specs.Making.{Underway};
ghost use Rattle.life.specs.Lives.{Runs};

use crate::call::Turn;
use crate::make::make;
use bench::{Bench, Status};
use refusal::Refusal;
use register::Register;
use service::Service;

// Makes every call in its turn.
fn make_all<R: Register, S: Service>(bench: &mut Bench<'_, R, S>, turns: &mut [Turn<'_>])
    ensures { let calls = calls_of turns.old in
        Underway R.Register S.Service bench.old calls (length turns.new) turns.new bench.new }
{
    for turn in turns.iter_mut() {
        turn.outcome = Some(make(bench, &turn.call));
    }
}

/// Opens a bench over the register and the service, and makes every call in its turn. What comes of
/// it is written into the turns; the bench is ended, and what it kept is handed out. The register's
/// memory comes from its memory before by storing the statements that the calls added, in order.
///
/// If the open is refused, on ground 3, 4 or 5 at place 0, no call is made, and register, service
/// and turns are as they were.
pub fn run_life<R: Register, S: Service>(
    f: u64,
    foreign: u64,
    register: &mut R,
    service: &mut S,
    turns: &mut [Turn<'_>],
) -> Result<Status, Refusal>
    ensures life { Runs (record { f = f; mask = foreign }) (service_of S.Service service.old)
        (R.held register.old) (R.free register.old) turns.old
        result turns.new (R.held register.new) (R.free register.new) }
    ensures memory { IfOk result (λ _. R.memory register.new
        ≡ fold R.stores (R.memory register.old)
        (additions (record { f = f; mask = foreign }) (service_of S.Service service.old)
        (opened (R.free register.old)) (calls_of turns.old))) }
    ensures kind { kind_of S.Service service.new ≡ kind_of S.Service service.old }
    ensures refused { OnErr result
        ((register.new ≡ register.old) × (service.new ≡ service.old)) }
{
    match Bench::open(f, foreign, register, service) {
        Ok(mut bench) => {
            make_all(&mut bench, turns);
            Ok(bench.close())
        }
        Err(unopened) => Err(unopened.refusal),
    }
}
