//! Nothing but tests of what a run reads and writes: commands, lines of a scenario and of a transcript, neighbour messages, captures,
//! the book of a live run; of how bytes and lines are transferred; and of lists.
#![tactic(auto)]

#[cfg(test)]
mod tests;
