//! The replicas in words.
use crate::members::MEMBERS;
use replica::{Mode, Replica, bit};

// Prints one replica.
fn print_replica(rt: &HostRuntime, number: u8, replica: &Replica) -> anyhow::Result<()> {
    let Replica {
        view,
        target,
        length,
        word,
        ..
    } = *replica;
    print!(rt; "    replica {number}: view {view}, length {length}, word {word}")?;
    match replica.mode() {
        Mode::AtWork => println!(rt; ", at work")?,
        Mode::Leaving => println!(rt; ", leaving for view {target}")?,
    }
    Ok(())
}

/// Prints the view, the line and the mode of each replica; of a foreign one that it is foreign.
pub fn print_replicas(rt: &HostRuntime, foreign: u64, replicas: &[Replica]) -> anyhow::Result<()> {
    println!(rt; "  Replicas:")?;
    for (number, replica) in (0..MEMBERS.replicas).zip(replicas) {
        if bit(foreign, number) {
            println!(rt; "    replica {number}: foreign")?;
            continue;
        }
        print_replica(rt, number, replica)?;
    }
    Ok(())
}
