//! What a switch chip does with a frame that enters at one of its ports, by its tables alone.
//!
//! A frame goes through the stages of a pipeline: the row of its port, its VLAN, its source, the traps, the lookup, the way out.
#![tactic(auto)]

mod answer;
mod egress;
mod entries;
mod lookup;
mod pipeline;
mod ports;
mod sources;
mod traps;
mod vlans;

pub use answer::Pass;
pub use pipeline::pass;
