ghost use Rattle.service.specs.Operations.{Decodes, Encodes};
ghost use Rattle.rating.specs.Operations.{rating_operation};

use crate::curve::Curve;
use service::{Unencodable, UnknownOperation};

/// An operation of the rating service.
#[derive(Clone, Copy, Debug, PartialEq, Eq, Hash)]
pub enum Operation {
    /// Loads a curve, in place of the one of its number.
    Load(Curve),
    /// Asks for the flow at a stage, in millimetres.
    Read(u16),
}

/// The operation that 64 bits stand for, if any.
impl TryFrom<u64> for Operation {
    type Error = UnknownOperation;

    ghost try_from_gives = { Decodes rating_operation };

    fn try_from(bits: u64) -> Result<Operation, UnknownOperation> {
        // The layout is fixed. LOAD is kind 1: kind 2 bits, curve 3, low 14, high 14, offset 20,
        // slope 11. READ is kind 2: kind 2 bits, stage 14, filling 48.
        let low = ((bits >> 45) % 0x4000) as u16;
        let high = ((bits >> 31) % 0x4000) as u16;
        match bits >> 62 {
            1 if low <= high => Ok(Operation::Load(Curve {
                number: ((bits >> 59) % 8) as u8,
                low,
                high,
                offset: ((bits >> 11) % 0x10_0000) as u32,
                slope: (bits % 0x800) as u16,
            })),
            2 if bits % 0x1_0000_0000_0000 == 0 => {
                Ok(Operation::Read(((bits >> 48) % 0x4000) as u16))
            }
            _ => Err(UnknownOperation),
        }
    }
}

/// The 64 bits that stand for the operation. There are none where a field is too wide for its bits,
/// or a curve's low is above its high.
impl TryFrom<Operation> for u64 {
    type Error = Unencodable;

    ghost try_from_gives = { Encodes rating_operation };

    fn try_from(operation: Operation) -> Result<u64, Unencodable> {
        // The layout is fixed.
        match operation {
            Operation::Load(c)
                if c.number > 7
                    || c.low > c.high
                    || c.high > 0x3fff
                    || c.offset > 0xf_ffff
                    || c.slope > 0x7ff => { Err(Unencodable) }
            Operation::Load(c) => Ok(
                (1 << 62)
                    + (u64::from(c.number) << 59)
                    + (u64::from(c.low) << 45)
                    + (u64::from(c.high) << 31)
                    + (u64::from(c.offset) << 11)
                    + u64::from(c.slope),
            ),
            Operation::Read(stage) if stage > 0x3fff => Err(Unencodable),
            Operation::Read(stage) => Ok((2 << 62) + (u64::from(stage) << 48)),
        }
    }
}
