//! The lines of a transcript: written as text, and read from it.
#![tactic(auto)]

mod causes;
mod digits;
mod fields;
mod frames;
mod line_end;
mod reader;
mod words;
mod writer;

pub use causes::append_bad;
pub use reader::read;
pub use writer::{Writer, write};
