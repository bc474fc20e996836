//! The audit of a chip: which of the bridge's address entries it has, which it has that the bridge hasn't, and how many updates wait
//! for it.
//!
//! An entry is offloaded where the chip has applied the last change of its VLAN and address, and pending else; which is told by the
//! tickets of the updates, not by what the entries say. An entry of the chip is stale where the bridge has none there, or one with
//! another port or kind.
#![tactic(auto)]

mod auditing;
mod comparison;
mod entries;
pub mod laws;
mod lines;
mod rows;

pub use auditing::{audit, compare};
pub use br_model::NoMemory;
pub use comparison::{Audit, Comparison};
pub use entries::{Entries, Found};
pub use lines::append_audit;
pub use rows::Row;
