//! The core of a bridge with switch chips: the kernel's side and the chips together, one step of the world a call.
#![tactic(auto)]

mod faults;
mod held;
pub mod plane;
mod sending;
mod sides;

pub use br_model::NoMemory;
pub use faults::{PostFault, TurnFault};
pub use held::Held;
pub use plane::{Entered, Plane};
