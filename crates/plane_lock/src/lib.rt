//! The plane with its record behind a lock: updates are posted where their changes are accepted, and a held frame is posted by a
//! decision that was made without the lock.
#![tactic(auto)]

mod chair;
mod desk;
mod locked;
mod queues;
mod shared;

pub use br_model::NoMemory;
pub use chair::Chair;
pub use desk::Desk;
pub use locked::{ActFault, Locked, post_updates};
pub use plane_record::{Book, Ran, StepList};
pub use queues::{Queue, Queues};
pub use shared::Shared;
