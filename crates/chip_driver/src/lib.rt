//! The driver of a switch chip: it keeps the chip's rows standing for the bridge's table, change by change.
#![tactic(auto)]

pub mod driver;
pub mod fans;
mod groups;
pub mod kept;
mod making;
mod pvids;
pub mod shadow;
pub mod shares;
mod switches;

pub use driver::Driver;
