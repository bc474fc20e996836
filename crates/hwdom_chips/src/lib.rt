//! The switch chips of a bridge, one for each domain that has one. They follow the bridge's history.
#![tactic(auto)]

pub mod chip;
pub mod chips;
mod marks;
mod sweep;

pub use br_model::NoMemory;
pub use chip::Chip;
pub use chips::Chips;
pub use marks::mark_of;
