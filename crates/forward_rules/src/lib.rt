//! The software tables of a bridge: what a list of changes comes to, and what it decides of a frame.
//!
//! A decision looks up one address. Of a frame to a known station it asks that one port, of others sets of ports. Memory is taken
//! at the making alone.
#![tactic(auto)]

mod flag_table;
mod foreign;
mod place;
pub mod port_tables;
pub mod soft_tables;
mod state_table;

pub use br_model::NoMemory;
pub use port_tables::PortTables;
pub use soft_tables::{SoftTables, Verdict};
