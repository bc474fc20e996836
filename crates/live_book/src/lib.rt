//! Whether the closed book of a run is a live run of its scenario, tested by walks over the book.
//!
//! Which steps accepted changes, and which reports were refused, is read off the lines; what is left to do at the end is read off the
//! plane before the book is closed.
#![tactic(auto)]

mod drained;
mod lanes;
pub mod laws;
mod live;
mod parts;
mod published;

pub use br_model::NoMemory;
pub use drained::Remains;
pub use live::is_live;
