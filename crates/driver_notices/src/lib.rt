//! What the drivers of a bridge's chips are told in a run, a line for each notice.
//!
//! A `Teller` gives the lines of a run as it goes on, and `append_line` writes one.
#![tactic(auto)]

pub mod laws;
mod line;
mod teller;
mod writer;

pub use br_model::NoMemory;
pub use line::NoticeLine;
pub use teller::{Teller, take};
pub use writer::{append_end, append_line, append_lines};
