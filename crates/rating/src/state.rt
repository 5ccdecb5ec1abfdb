ghost use Rattle.rating.specs.Curves.{numbered};

use crate::curve::Curve;
use arrayvec::ArrayVec;

/// The rating service: at most eight curves, the one loaded last first.
#[derive(Debug, Drop)]
pub struct Rating {
    pub(crate) curves: ArrayVec<Curve, 8>,
    // A ghost field, not a model: callers can read it of any `Rating`.
    ghost apart: { numbered 8 curves.items },
}
