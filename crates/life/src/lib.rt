//! The life of a bench: an open, and then any list of calls.
#![tactic(auto)]

mod call;
mod make;
mod run;

pub use call::{Call, Outcome, Turn};
pub use run::run_life;
