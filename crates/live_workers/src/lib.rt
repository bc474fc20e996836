//! A scenario whose frames, commands, moments and sweeps are taken as a live run by workers.
#![tactic(auto)]

mod frames;
mod queues;
mod remains;
mod run;
mod stop;
mod workers;

pub use br_model::NoMemory;
pub use live_thread::{Taken, run_alone, take_alone};
pub use run::take_steps;
