//! The world of a run: each of its steps is done on a plane, and gives its lines. What is said of a run besides its transcript, by a
//! monitor or by a querier on the host, is said step by step.
#![tactic(auto)]

mod addresses;
mod asking;
mod entered;
mod held;
mod monitor;
pub mod voice;
mod world;

pub use asking::Asking;
pub use br_model::NoMemory;
pub use monitor::Monitor;
pub use world::World;
