//! A scenario is read line by line and run against the bridge, and its transcript or a table is written; or one is generated, and written
//! or run.
#![tactic(auto)]

pub mod audit;
pub mod commands;
mod demo;
mod replay;
mod session;
