//! Registers over records: `Table` over records that the caller lends, and `SpareSheet`, which has
//! 16 of its own, over any register.
#![tactic(auto)]

mod entering;
mod sheet;
mod store;
mod table;

pub use sheet::SpareSheet;
pub use table::Table;
