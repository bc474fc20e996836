//! The control plane of a bridge: it takes an event, and answers a refusal or makes changes.
//!
//! A reaction costs what it changes. `port down`, `vlan del` and a moment at which an entry may end look at each address.
#![tactic(auto)]

pub mod bridge;

pub use br_model::NoMemory;
pub use bridge::{Bridge, Reaction};
pub use bridge_state::EventFault;
pub use fdb_core::Entry;
