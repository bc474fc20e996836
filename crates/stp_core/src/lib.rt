//! The spanning tree of a bridge (IEEE 802.1D-1998 clauses 8 and 9).
//!
//! `Parameters` keeps what the definitions of `br_model` keep, in an array with a place for each port, some 40 kB. A pass over the
//! ports ends behind the last that was up. Each of their rules is a small function here, and an event is a composition of them.
//! `Tree` keeps beside it the moment before which nothing is due.
#![tactic(auto)]

mod events;
mod idle;
mod messages;
mod parameters;
mod places;
mod rules;
mod sending;
mod steps;
mod timers;
mod tree;
mod vectors;

pub use crate::tree::{Tree, TreeOut};
