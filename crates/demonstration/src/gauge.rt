//! A gauge with two rating curves that meet at two metres.
ghost use Rattle.std.specs.Prelude.{◌≡◌, [], IfOk, OnOk};
ghost use Rattle.rating.specs.Curves.{deciding, loaded};
ghost use Rattle.rating.specs.Rating.{curves_of, flow_by};

use rating::{Curve, Operation, Rating};
use service::{Service, figure};

const LOW: Curve = Curve {
    number: 0,
    low: 0,
    high: 2000,
    offset: 0,
    slope: 3,
};

const HIGH: Curve = Curve {
    number: 1,
    low: 2000,
    high: 5000,
    offset: 6200,
    slope: 5,
};

// The flow at a stage, which is printed.
fn read(rt: &HostRuntime, rating: &mut Rating, stage: u16) -> anyhow::Result<u64>
    ensures flow { IfOk result (λ x. x ≡ flow_by stage (deciding stage (curves_of rating.old))) }
    ensures curves { OnOk result (curves_of rating.new ≡ curves_of rating.old) }
{
    let flow = rating.apply(u64::try_from(Operation::Read(stage))?);
    match figure(flow) {
        Ok(flow) => println!(rt; "  at {stage} mm: {flow} l/s")?,
        Err(why) => println!(rt; "  at {stage} mm: {why}")?,
    }
    Ok(flow)
}

// Loads two curves into a fresh service and reads about two metres. Answers the flow at two metres.
fn read_after(rt: &HostRuntime, first: Curve, second: Curve) -> anyhow::Result<u64>
    ensures { IfOk result
        (λ x. x ≡ flow_by 2000 (deciding 2000 (loaded second (loaded first [])))) }
{
    let (a, b) = (first.number, second.number);
    println!(rt; "Curve {a} loaded, then curve {b}")?;
    let mut rating = Rating::new();
    rating.apply(u64::try_from(Operation::Load(first))?);
    rating.apply(u64::try_from(Operation::Load(second))?);
    read(rt, &mut rating, 1999)?;
    let flow = read(rt, &mut rating, 2000)?;
    read(rt, &mut rating, 2001)?;
    read(rt, &mut rating, 5001)?;
    Ok(flow)
}

/// Loads the curves in both orders. Answers the flow at two metres with the high curve loaded last.
pub fn read_two_metres(rt: &HostRuntime) -> anyhow::Result<u64>
    ensures { IfOk result (λ flow. flow ≡ 6200) }
{
    println!(rt; "Gauge: two rating curves hold at a stage of 2000 mm")?;
    println!(rt; "  {LOW}")?;
    println!(rt; "  {HIGH}")?;
    read_after(rt, HIGH, LOW)?;
    read_after(rt, LOW, HIGH)
}
