//! A scenario is played: its lines and sections are taken one after another, their steps are done on a stage, and what they tell is written
//! behind a text. It knows no source, no sink and no thread.
#![tactic(auto)]

mod fronts;
mod play;
mod stage;
mod torn;

pub use br_model::NoMemory;
pub use fronts::{Front, first_line};
pub use play::{Play, Taken};
pub use stage::Stage;
