//! The rating service: rating curves, and the flow that they give at a stage.
#![tactic(auto)]

mod curve;
mod operation;
mod serving;
mod state;

pub use curve::Curve;
pub use operation::Operation;
pub use state::Rating;
