//! The generated scenario of so many frames: its text, and its steps one at a time.
#![tactic(auto)]

mod frame_steps;
mod generator;

pub use br_model::NoMemory;
pub use frame_steps::{FrameSteps, Made};
pub use generator::{
    END_BYTES, Generator, MOST_FRAME_BYTES, OPENING_BYTES, append_opening, domains, first_steps,
    generate,
};
