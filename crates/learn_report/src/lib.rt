//! What a chip reports: sources that it has learned, in a ring, and which of its entries frames have hit.
#![tactic(auto)]

pub mod noting;
pub mod reports;
mod waiting;

pub use br_model::NoMemory;
pub use reports::{Report, Reports};
