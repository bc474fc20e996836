//! Reads a scenario line by line, whoever has its bytes: what each line comes to, and how the scenario ends. Or a whole one at once.
#![tactic(auto)]

pub mod laws;
mod reader;
mod section;
mod whole;

pub use br_model::NoMemory;
pub use reader::{Captured, Last, Next, Reader};
pub use whole::{Whole, read_scenario};
