//! The plain types of the bridge, and in `specs/` every definition that contracts cite.
//!
//! `plain` has a table as plain as the definitions, whose contracts are the definitions themselves.
#![tactic(auto)]

pub mod bpdu;
pub mod bytes;
pub mod capture;
pub mod change;
pub mod check_laws;
pub mod class_laws;
pub mod command_laws;
pub mod cut_laws;
pub mod domains;
pub mod ending_laws;
pub mod ends_laws;
pub mod frame;
pub mod group;
pub mod headline_laws;
pub mod history_laws;
pub mod laws;
pub mod limits;
pub mod listing;
pub mod live_laws;
pub mod message_laws;
pub mod name;
pub mod numbers;
pub mod parcel;
pub mod plain;
pub mod plane_laws;
pub mod refusal_laws;
pub mod scenario;
pub mod snoop_laws;
pub mod spelling;
pub mod stamp_laws;
pub mod state_laws;
pub mod steps;
pub mod transcript;
pub mod tree;
pub mod tree_laws;
pub mod written_laws;

/// There was no memory. It is the one answer that may come at any call that allocates.
pub type NoMemory = std::alloc::AllocError;
