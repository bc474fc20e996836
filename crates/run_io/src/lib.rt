//! Sources of bytes, sinks for bytes, and the lines and pieces of a source.
#![tactic(auto)]

pub mod lines;
pub mod output;
pub mod sinks;
pub mod sources;
pub mod whole;

/// An allocation was refused.
pub type NoMemory = std::alloc::AllocError;
