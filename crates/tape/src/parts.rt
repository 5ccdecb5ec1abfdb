//! Parts of a tape, 20 bytes each.
ghost use Rattle.std.specs.Prelude.{◌≡◌, ◌<◌};
ghost use Rattle.std.specs.Str.{bytes_eq};
ghost use Rattle.register.specs.Sets.{Emptiness};
ghost use Rattle.register.specs.Stored.{stored};
ghost use Rattle.std.specs.List.{list_any};
ghost use Rattle.record.specs.Tapes.{places};
ghost use Rattle.tape.specs.Tapes.{has_bytes, replaced};

use record::{Record, SIZE};

// Whether one of the parts has just these bytes. They are compared as slices, of which the first
// bytes are looked at before the others: with arrays a tape's ask takes about three times as long.
pub(crate) fn has(parts: &[[u8; SIZE]], bytes: &[u8; SIZE]) -> bool
    ensures { result ≡ list_any (λ y. bytes_eq y bytes.now) parts.now }
{
    parts.iter().any(|part| part[..] == bytes[..])
}

// Whether none of the parts holds a statement: as of a table's records, but each is unpacked.
pub(crate) fn holds_nothing(parts: &[[u8; SIZE]]) -> bool
    ensures { Emptiness (stored has_bytes parts.now) result }
{
    !parts.iter().any(|part| Record::unpack(part).is_ok())
}

// Writes the part to the place.
#[tactic(auto, using(crate::proofs::Places::write_replaces))]
pub(crate) fn write_part(bytes: &mut [u8], place: usize, part: &[u8; SIZE])
    requires { place < places bytes.old }
    ensures { bytes.new ≡ replaced place bytes.old part.now }
{
    let start = SIZE * place;
    bytes[start..start + SIZE].copy_from_slice(part);
}
