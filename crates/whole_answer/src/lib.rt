//! A command that reads its whole input and then writes its answer.
#![tactic(auto)]

mod answer;
mod answering;

pub use answer::{Answer, Found, Verdict};
pub use answering::answer_all;
pub use br_model::NoMemory;
