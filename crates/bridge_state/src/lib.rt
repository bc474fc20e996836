//! Where a bridge stands, and what an event asks of it, before any of it is done.
#![tactic(auto)]

pub mod addresses;
pub mod ageing;
pub mod commands;
pub mod ending;
pub mod faults;
pub mod learning;
pub mod plan;
pub mod snooping;
pub mod spanning_tree;
pub mod state;

pub use br_model::NoMemory;
pub use faults::EventFault;
