//! A plane with the record of its run: the steps that were taken, and the lines that they wrote.
#![tactic(auto)]

mod ran;

pub use br_model::NoMemory;
pub use ran::{Book, Ran, StepList};
