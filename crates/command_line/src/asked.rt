//! What the words of a command line ask for.
use br_model::listing::Listing;

/// What the program is asked to do.
#[derive(Clone, Copy)]
pub enum Asked {
    /// To run the scenario of the input, and write its transcript.
    Replay,
    /// To compare the transcript behind the scenario of the input with what is told of it.
    Check,
    /// To run the scenario of the input, and write a table at its end.
    Show(Listing),
    /// To run the scenario of the input, and write the messages of its address changes.
    Monitor,
    /// To run the scenario of the input, and write the audit of its chips at its end.
    Audit,
    /// To read messages as `Monitor` writes them, and write the table that they give.
    Follow,
    /// To run the scenario of the input, and write the general queries that a querier on the host sends.
    Querier {
        /// Its address of version 4: neither zero nor multicast.
        four: u32,
        /// Its address of version 6: in fe80::/10.
        six: u128,
    },
    /// To run the scenario of the input by workers, and write the scenario of the steps as they happened and its transcript.
    Live {
        /// From 1 to 16.
        workers: usize,
    },
    /// To write a scenario of generated frames.
    Gen {
        /// The generator's first state.
        number: u64,
        /// Frames, at most 100,000.
        count: u32,
    },
    /// To run such a scenario, and write a summary.
    Demo {
        /// The generator's first state.
        number: u64,
        /// Frames, at most 100,000.
        count: u32,
    },
}
