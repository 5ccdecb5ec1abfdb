//! An account of water that is drawn down.
use allotment::{Allotment, Operation};
use service::{Service, figure};

/// Grants 100 to account 3, and draws 30 four times. The balance does not suffice for the last.
pub fn draw_until_refused(rt: &HostRuntime) -> anyhow::Result<()> {
    println!(rt; "Allotment: account 3")?;
    let mut allotment = Allotment::new();
    let grant = u64::try_from(Operation::Grant {
        account: 3,
        amount: 100,
    })?;
    let draw = u64::try_from(Operation::Draw {
        account: 3,
        amount: 30,
    })?;
    let balance = allotment.apply(grant);
    println!(rt; "  grant 100: the balance is {balance}")?;
    for _ in 0..4 {
        match figure(allotment.apply(draw)) {
            Ok(balance) => println!(rt; "  draw 30: the balance is {balance}")?,
            Err(why) => println!(rt; "  draw 30: {why}")?,
        }
    }
    Ok(())
}
