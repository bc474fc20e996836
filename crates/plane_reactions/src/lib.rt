//! What an event comes to where something follows a bridge: the changes of the reaction, the lines of its messages, and the last line of
//! its step.
#![tactic(auto)]

pub mod ending;

pub use br_model::NoMemory;
pub use ending::last_line;
