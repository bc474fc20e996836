//! What a bridge's plane and a checker of its transcripts keep alike: the frames on their way to software, the lines by which a frame
//! leaves, and where the deferred changes of a history stand.
#![tactic(auto)]

pub mod frames;
pub mod sending;
pub mod updates;
pub mod waiting;

pub use br_model::NoMemory;
pub use frames::{Arrival, Frames};
pub use sending::{Egress, make_room, send};
pub use updates::Updates;
pub use waiting::{Holding, Waiting};
