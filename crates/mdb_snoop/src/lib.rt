//! What snooping learned: the members of groups, the router ports and the queriers, each with the moment at which it ends, or without.
//!
//! It takes its room at its making, for 1,024 pairs of VLAN and group with up to 255 members each: 2.2 MB, or 80 kB where nothing ends.
#![tactic(auto)]

pub mod ended;
mod ends;
mod groups;
mod mdb;
mod members;
mod moments;
mod port_counts;
mod sections;
mod snooped;

pub use crate::ended::{Ended, Memberships, Pairs};
pub use crate::groups::Groups;
pub use crate::mdb::Mdb;
pub use crate::snooped::Snooped;
pub use br_model::NoMemory;
