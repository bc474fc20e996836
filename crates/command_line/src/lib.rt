//! The words of the command line, and what they ask for.
#![tactic(auto)]

mod asked;
mod words;
pub mod words_laws;

pub use asked::Asked;
pub use words::read_words;
