//! The lines of a scenario: read as items, and written from steps. The lines of a listing.
#![tactic(auto)]

mod digits;
mod head;
pub mod laws;
mod lines;
mod listing;
mod plain;
mod reading;
mod words;
mod write;

pub use br_model::NoMemory;
pub use head::{append_head, append_scenario, write_head};
pub use listing::{append_group, device, list};
pub use reading::{read_line, says_end};
pub use write::{append_line, write_line};
