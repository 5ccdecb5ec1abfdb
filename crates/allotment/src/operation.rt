ghost use Rattle.service.specs.Operations.{Decodes, Encodes};
ghost use Rattle.allotment.specs.Operations.{allotment_operation};

use service::{Unencodable, UnknownOperation};

/// An operation of the allotment service.
#[derive(Clone, Copy, Debug, PartialEq, Eq, Hash)]
pub enum Operation {
    /// Adds to the balance of an account.
    Grant { account: u8, amount: u32 },
    /// Subtracts from the balance of an account.
    Draw { account: u8, amount: u32 },
}

/// The operation that 64 bits stand for, if any.
impl TryFrom<u64> for Operation {
    type Error = UnknownOperation;

    ghost try_from_gives = { Decodes allotment_operation };

    fn try_from(bits: u64) -> Result<Operation, UnknownOperation> {
        // The layout is fixed: kind 2 bits, account 4, amount 32, filling 26.
        let account = ((bits >> 58) % 16) as u8;
        let amount = ((bits >> 26) % 0x1_0000_0000) as u32;
        match (bits >> 62, bits % 0x400_0000) {
            (1, 0) => Ok(Operation::Grant { account, amount }),
            (2, 0) => Ok(Operation::Draw { account, amount }),
            _ => Err(UnknownOperation),
        }
    }
}

/// The 64 bits that stand for the operation. There are none for an account above 15.
impl TryFrom<Operation> for u64 {
    type Error = Unencodable;

    ghost try_from_gives = { Encodes allotment_operation };

    fn try_from(operation: Operation) -> Result<u64, Unencodable> {
        // The layout is fixed.
        let (kind, account, amount) = match operation {
            Operation::Grant { account, amount } => (1u64, account, amount),
            Operation::Draw { account, amount } => (2u64, account, amount),
        };
        if account > 15 {
            return Err(Unencodable);
        }
        Ok((kind << 62) + (u64::from(account) << 58) + (u64::from(amount) << 26))
    }
}
