//! How a run ends: its status, what each status says of what was read and written, and the writing of its last line. The texts of a
//! live run and of a bad line, and a text of whole lines where memory lacks.
#![tactic(auto)]

mod bad;
mod live;
mod status;
mod stop;
mod torn;

pub use bad::bad_text;
pub use br_model::NoMemory;
pub use live::live_text;
pub use status::{Status, end_with, end_without_memory, put_last};
pub use stop::Stop;
pub use torn::cut_if_torn;
