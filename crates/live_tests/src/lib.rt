//! Nothing but tests of the plane's lock, of the queue, the published tables and the workers below it, and of live runs.
#![tactic(auto)]

#[cfg(test)]
mod tests;
