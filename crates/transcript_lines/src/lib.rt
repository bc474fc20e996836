//! The lines of a step, or of several, as rows over one arena of bytes: a frame that leaves by many ports is one row.
#![tactic(auto)]

mod lines;
mod row;

pub use lines::Lines;
pub use row::{Row, Span};
