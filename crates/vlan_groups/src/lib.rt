//! The memberships of a bridge's VLANs, and the PVIDs of its ports.
#![tactic(auto)]

pub mod joined;
mod row;
pub mod table;
pub mod vid_list;

pub use br_model::NoMemory;
pub use table::{Absent, Exists, VlanTable};
pub use vid_list::Vids;
