//! Shows the basin ledger on a task of each part, and prints each step: readings at a gauge, draws
//! from an allotment, the errors, a statement of a reading, packed and read back, and the
//! statements of four replicas in a register. Then it runs two lives of a bench of four replicas,
//! one over each service, and prints every call with what comes of it, and what is certified at
//! the end.
#![tactic(auto)]

mod answers;
mod draws;
mod errors;
mod gauge;
mod line;
mod lives;
mod members;
mod packing;
mod readings;
mod replicas;
mod statement;
mod steps;
mod water;
mod words;

fn run(rt: &HostRuntime) -> anyhow::Result<()> {
    let flow = gauge::read_two_metres(rt)?;
    water::draw_until_refused(rt)?;
    errors::print_errors(rt)?;
    packing::pack_and_read(rt, flow)?;
    answers::enter_answers(rt, flow)?;
    readings::run(rt)?;
    draws::run(rt)
}

fn main(rt: HostRuntime) -> anyhow::Result<()> {
    run(&rt)
}
