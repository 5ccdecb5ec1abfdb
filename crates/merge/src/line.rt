//! The line that picks merge to.
// A line is a pair here, length and word: lead and start say it.
ghost use Rattle.std.specs.Prelude.{◌≡◌, max, bit_or};
ghost use Rattle.merge.specs.Merges.{merge, MergesAlike};

use crate::picks::top;
use record::Record;

// The line with the reach and the word of a pick.
fn with_pick(line: (u8, u64), pick: &Record) -> (u8, u64)
    ensures { result ≡ (max line.0 pick.now.slot, bit_or line.1 pick.now.word) }
{
    (line.0.max(pick.slot), line.1 | pick.word)
}

/// The line that the picks merge to over the base: the base with the reaches and the words of the
/// picks whose last is the greatest. The order of the picks does not matter.
pub fn merge(picks: &[Record], base: (u8, u64)) -> (u8, u64)
    ensures line { result ≡ merge base picks.now }
    ensures alike { MergesAlike }
{
    let top = top(picks);
    let mut line = base;
    for pick in picks {
        if pick.last == top {
            line = with_pick(line, pick);
        }
    }
    line
}
