//! A scenario taken as a live run on one thread: what is accepted is published at once, and at the end nothing is left to do.
#![tactic(auto)]

mod alone;
pub mod drain;
mod opening;

pub use alone::{Taken, run_alone, take_alone};
pub use br_model::NoMemory;
pub use opening::open;
