//! Tables that are published as a whole: one board publishes, and seats look up without waiting.
//!
//! There are two copies of the tables: readers take one of them, and the board changes the other and then swaps them. So a
//! publication costs what was appended since the last one, twice, and a seat has no tables of its own.
//!
//! Below both stands the history of publications: the book that has it (`law`), the tables that stand for it (`content`, `packed`),
//! and the rule of what is published (`rule`).
#![tactic(auto)]

mod board;
mod content;
mod law;
mod name;
mod packed;
mod rule;
mod seat;

pub use board::{Board, Seats};
pub use br_model::NoMemory;
pub use name::Name;
pub use seat::{Seat, Seen};
