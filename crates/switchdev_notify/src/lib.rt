//! What a switch driver is told of the bridge's changes: objects that come and go, and attributes that change.
//!
//! Address entries aren't told this way: they reach a chip through a queue, as the kernel's drivers take them by deferred
//! work.
#![tactic(auto)]

pub mod notice;
pub mod ops;

pub use notice::{Attribute, Notice, Object, notice_of};
pub use ops::{SwitchOps, deliver};
