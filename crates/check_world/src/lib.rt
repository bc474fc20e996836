//! The world in which a check of a transcript does its steps: that of a bridge with chips, without the chips.
#![tactic(auto)]

mod cut;
mod cuts;
mod point;
mod sides;
mod world;

pub use br_model::NoMemory;
pub use world::World;
