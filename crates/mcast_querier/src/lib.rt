//! A querier on the host: the general queries of IGMP and MLD that it sends, and to whom it yields.
//!
//! A switch that snoops learns who wants a group from the reports that hosts send when they are asked, so somebody has to ask. Where
//! no router does, a host can. Of several the one with the lowest address asks (RFC 2236 section 3, RFC 2710 section 4): a querier
//! that hears a lower one falls silent until it hasn't heard one for 255 seconds.
#![tactic(auto)]

mod checksum;
mod election;
mod hearing;
pub mod laws;
mod querier;
mod queries;

pub use crate::hearing::asker;
pub use crate::querier::{Querier, Queries};
pub use br_model::NoMemory;
