//! The tables of a switch chip, as banks of packed rows that can be read and written one by one.
#![tactic(auto)]

mod addresses;
mod groups;
pub mod rows;
pub mod tables;
pub mod trap_rows;

pub use br_model::NoMemory;
pub use rows::{AddressRow, Control, FanRow, Flood, PortRow, VlanRow};
pub use tables::Tables;
