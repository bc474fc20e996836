//! The lines of sections behind a scenario: their words, the forms of a scenario's lines among them, and bytes as digits spell them.
#![tactic(auto)]

pub mod cut;
pub mod forms;
pub mod spelled;
pub mod words;

pub use br_model::NoMemory;
pub use cut::{Line, front};
pub use forms::{is_command, is_line};
pub use spelled::hex_bytes;
pub use words::{Words, find_words};
