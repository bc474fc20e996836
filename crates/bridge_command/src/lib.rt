//! The declared ports of a scenario, and its commands: the words after `cmd`.
#![tactic(auto)]

mod addresses;
mod command;
mod flags;
mod groups;
mod ip_words;
mod operands;
mod ports;
mod roster;
mod tree;
mod vlans;

pub use br_model::NoMemory;
pub use command::read_command;
pub use flags::flag;
pub use ip_words::{address_four, address_six};
pub use operands::{frame_number, mac, milliseconds, number_up_to, section_length};
pub use roster::Roster;
