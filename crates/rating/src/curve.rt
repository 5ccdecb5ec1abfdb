ghost use Rattle.std.specs.Prelude.{◌≡◌, Some};
ghost use Rattle.rating.specs.Curves.{holds, flow, curve_text};

use std::fmt;

/// A rating curve: the flow, in litres per second, at the stages from `low` to `high`, in
/// millimetres, both among them. It rises from `offset` by `slope` with each millimetre.
#[derive(Clone, Copy, Debug, Default, PartialEq, Eq, Hash)]
pub struct Curve {
    // From the widest to the narrowest, so that a curve takes 12 bytes.
    pub offset: u32,
    pub low: u16,
    pub high: u16,
    pub slope: u16,
    pub number: u8,
}

// By hand: a derived text has no contract.
impl fmt::Display for Curve {
    ghost output = { λ c. Some (curve_text c) };

    fn fmt<W: fmt::Write>(&self, f: &mut fmt::Formatter<W>) -> fmt::Result {
        let Curve {
            number,
            low,
            high,
            offset,
            slope,
        } = *self;
        write!(
            f,
            "curve {number}: {low} to {high} mm, {offset} l/s at its low end, {slope} l/s more for each mm"
        )
    }
}

impl Curve {
    // Whether the curve holds the stage.
    pub(crate) fn holds(&self, stage: u16) -> bool
        ensures { result ≡ holds self.now stage }
    {
        (self.low..=self.high).contains(&stage)
    }

    // The flow at a stage that the curve holds.
    pub(crate) fn flow(&self, stage: u16) -> u64
        ensures { result ≡ flow self.now stage }
    {
        u64::from(self.offset) + u64::from(self.slope) * u64::from(stage.saturating_sub(self.low))
    }
}
