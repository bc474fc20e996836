//! Another program's word on a transcript: whether it is what is told of a scenario.
#![tactic(auto)]

mod beside;
mod checking;
mod cursor;
mod lines;

pub use br_model::NoMemory;
pub use checking::{Answer, CheckFault, check, compare};
