//! What texts in memory come to: the transcript of a scenario, whole or line by line, its tables, and the table of lines of messages. No handle is
//! needed.
#![tactic(auto)]

mod copying;
mod following;
mod heap_world;
mod lone;
mod replaying;
mod running;
mod session;
mod showing;
mod trying;

pub use br_model::NoMemory;
pub use following::follow;
pub use lone::Lone;
pub use replaying::{Told, replay};
pub use session::{Session, SessionFault};
pub use showing::show;
