//! `check`: a scenario is read, and the transcript behind it compared with what is told of it.
#![tactic(auto)]

mod checking;

pub use checking::check_all;
