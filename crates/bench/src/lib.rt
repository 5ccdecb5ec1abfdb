//! A bench: up to sixteen replicas over one register and one service, and every call that is made
//! on it.
#![tactic(auto)]

mod answer;
mod certificates;
mod commit;
mod decide;
mod deliver;
mod drop;
mod enter;
mod find;
mod forge;
mod grounds;
mod lead;
mod leave;
mod open;
mod prepare;
mod reply;
mod settle;
mod setup;
mod stamp;
mod start;
mod status;

pub use open::{Bench, Unopened};
pub use setup::Setup;
pub use status::Status;
