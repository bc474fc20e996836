//! What the words of the command line ask for is done, by the crate that does it; `follow` and `live` are done here: messages are
//! followed, and a scenario is run by workers.
#![tactic(auto)]

mod follow;
pub mod laws;
mod live;
mod runner;

pub use br_model::NoMemory;
pub use command_line::{Asked, words_laws};
pub use run_status::{Status, end_without_memory};
pub use runner::run;
