//! Checking the picks of a view change, and merging them, over every register.
#![tactic(auto)]

mod backing;
mod base;
mod line;
mod picks;
mod view_change;

pub use line::merge;
pub use picks::{check_layout, top};
pub use view_change::ViewChange;
