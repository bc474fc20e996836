//! The forwarding database: a finite map from a VLAN and an address to a port, a kind and a moment.
//!
//! It takes its memory at its making, so that no entry is lost later for want of memory.
#![tactic(auto)]

mod ages;
pub mod entries;
pub mod key_list;
mod packing;
mod port_counts;
pub mod stations;
pub mod table;

pub use br_model::NoMemory;
pub use entries::{Entry, Key};
pub use key_list::Keys;
pub use stations::Stations;
pub use table::Fdb;
