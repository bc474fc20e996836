//! What a chip would do with a frame, while it applies update by update: the table of its cut, without the chip.
#![tactic(auto)]

pub mod deed;
pub mod laws;
pub mod walk;

pub use br_model::NoMemory;
pub use deed::Deed;
pub use walk::Walk;
