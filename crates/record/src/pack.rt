ghost use Rattle.std.specs.Prelude.{◌≡◌, ◌+◌, ◌%◌, ◌<◌, ◌≤◌, take, drop, IfOk, ◌==◌};
ghost use Rattle.record.specs.Bytes.{be};
ghost use Rattle.record.specs.Layout.{Layout};
ghost use Rattle.record.specs.Packed.{packed, packing, Packs, Unpacks};
ghost use Rattle.record.specs.Heads.{head_of, with_head};

use crate::{Record, SIZE};
use refusal::{Ground, Refusal};

// Methods, as `to_be_bytes` and `from_be_bytes` of numbers: they write and read one format.
impl Record {
    /// The record's 20 bytes. A record that breaks the layout is refused.
    pub fn pack(&self) -> Result<[u8; SIZE], Refusal>
        ensures value { result ≡ packing self.now }
        ensures alone { IfOk result (λ b. (r : Record) → Packs r b → r ≡ self.now) }
    {
        if !self.keeps_layout() {
            return Err(Ground::Layout.into());
        }
        Ok(bytes_of(self))
    }

    /// The record that packs to these bytes. Bytes to which none packs are refused.
    pub fn unpack(bytes: &[u8; SIZE]) -> Result<Record, Refusal>
        ensures { Unpacks 0 bytes.now result }
    {
        unpack_at(bytes, 0)
    }
}

// The record that packs to these bytes. Bytes to which none packs are refused at the place.
pub(crate) fn unpack_at(bytes: &[u8; SIZE], place: u64) -> Result<Record, Refusal>
    ensures { Unpacks place bytes.now result }
{
    let head = u32::from_be_bytes(part(bytes, 0));
    let word = u64::from_be_bytes(part(bytes, 4));
    let res = u64::from_be_bytes(part(bytes, 12));
    let record = with_head(head, word, res);
    if zero_filled(head) && record.keeps_layout() {
        Ok(record)
    } else {
        Err(Ground::Layout.at(place))
    }
}

// The first 32 bits of a record.
fn head(r: &Record) -> u32
    requires { Layout r.now }
    ensures { result ≡ head_of r.now }
{
    (u32::from(r.kind) << 28)
        + (u32::from(r.signer) << 24)
        + (u32::from(r.view) << 18)
        + (u32::from(r.last) << 12)
        + (u32::from(r.slot) << 5)
        + (u32::from(r.verdict) << 4)
}

// The bytes of a record that keeps the layout.
fn bytes_of(r: &Record) -> [u8; SIZE]
    requires { Layout r.now }
    ensures { result ≡ packed r.now }
{
    let mut bytes = [0; SIZE];
    bytes[0..4].copy_from_slice(&head(r).to_be_bytes());
    bytes[4..12].copy_from_slice(&r.word.to_be_bytes());
    bytes[12..20].copy_from_slice(&r.result.to_be_bytes());
    bytes
}

// Whether the four filling bits are 0, the lowest of the first 32.
fn zero_filled(head: u32) -> bool
    ensures { result ≡ (head % 16 == 0) }
{
    head % 16 == 0
}

// The record with these first 32 bits, word and result.
fn with_head(head: u32, word: u64, res: u64) -> Record
    ensures { result ≡ with_head head word res }
{
    Record {
        kind: (head >> 28) as u8,
        signer: ((head >> 24) % 16) as u8,
        view: ((head >> 18) % 64) as u8,
        last: ((head >> 12) % 64) as u8,
        slot: ((head >> 5) % 128) as u8,
        verdict: ((head >> 4) % 2) as u8,
        word,
        result: res,
    }
}

// The N bytes from `i` on.
fn part<const N: usize>(bytes: &[u8; SIZE], i: usize) -> [u8; N]
    requires { i + N ≤ 20 }
    ensures { result ≡ take N (drop i bytes.now) }
{
    let mut part = [0; N];
    part.copy_from_slice(&bytes[i..i + N]);
    part
}
