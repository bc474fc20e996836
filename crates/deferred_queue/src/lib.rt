//! Updates of addresses on their way to a driver: one end posts them, the other takes them, in order. It has room for all that a
//! run can have, from the beginning.
#![tactic(auto)]

mod ends;
mod rule;
mod tally;

pub use br_model::NoMemory;
pub use br_model::limits::MOST_CHANGES as MOST_UPDATES;
pub use ends::{Poster, Taker, make};
