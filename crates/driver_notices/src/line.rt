//! The lines of notices.
use br_model::change::Change;
use br_model::numbers::Dom;

/// What the drivers of the chips are told of a change, and when.
#[derive(Clone, Copy)]
pub enum NoticeLine {
    /// In this step the driver of each chip is told.
    Told {
        step: u32,
        change: Change,
    },
    /// In this step it is put into the queue of each chip. Numbers count from 1 in the order of acceptance.
    Queued {
        step: u32,
        number: u32,
        change: Change,
    },
    /// In this step the chip of the domain takes it from its queue.
    Applied {
        step: u32,
        dom: Dom,
        number: u32,
        change: Change,
    },
}
