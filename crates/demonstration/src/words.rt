//! Operations and answers in words.
use service::{Unanswered, UnknownOperation, figure};

/// A service whose operations and figures are printed in words.
pub trait InWords {
    /// Prints the operation that the bits stand for.
    fn print_operation(rt: &HostRuntime, bits: u64) -> anyhow::Result<()>;

    /// Prints a figure that answers the operation of these bits.
    fn print_figure(rt: &HostRuntime, bits: u64, figure: u64) -> anyhow::Result<()>;
}

impl InWords for rating::Rating {
    fn print_operation(rt: &HostRuntime, bits: u64) -> anyhow::Result<()> {
        match rating::Operation::try_from(bits) {
            Ok(rating::Operation::Load(curve)) => print!(rt; "LOAD {curve}")?,
            Ok(rating::Operation::Read(stage)) => print!(rt; "READ {stage} mm")?,
            Err(unknown) => print_bits(rt, bits, unknown)?,
        }
        Ok(())
    }

    fn print_figure(rt: &HostRuntime, bits: u64, figure: u64) -> anyhow::Result<()> {
        match rating::Operation::try_from(bits) {
            Ok(rating::Operation::Read(_)) => print!(rt; "{figure} l/s")?,
            _ => print!(rt; "{figure}")?,
        }
        Ok(())
    }
}

impl InWords for allotment::Allotment {
    fn print_operation(rt: &HostRuntime, bits: u64) -> anyhow::Result<()> {
        match allotment::Operation::try_from(bits) {
            Ok(allotment::Operation::Grant { account, amount }) => print!(rt;
                "GRANT {amount} to account {account}"
            )?,
            Ok(allotment::Operation::Draw { account, amount }) => print!(rt;
                "DRAW {amount} from account {account}"
            )?,
            Err(unknown) => print_bits(rt, bits, unknown)?,
        }
        Ok(())
    }

    fn print_figure(rt: &HostRuntime, _: u64, figure: u64) -> anyhow::Result<()> {
        print!(rt; "a balance of {figure}")?;
        Ok(())
    }
}

// Prints bits that are no operation.
fn print_bits(rt: &HostRuntime, bits: u64, unknown: UnknownOperation) -> anyhow::Result<()> {
    print!(rt; "{bits:016x} ({unknown})")?;
    Ok(())
}

/// Prints an answer to the operation of these bits: a figure, or the name of what is none.
pub fn print_answer<S: InWords>(rt: &HostRuntime, bits: u64, answer: u64) -> anyhow::Result<()> {
    match figure(answer) {
        Ok(figure) => S::print_figure(rt, bits, figure)?,
        Err(Unanswered::OutOfRange) => print!(rt; "out of range")?,
        Err(Unanswered::Malformed) => print!(rt; "malformed")?,
    }
    Ok(())
}
