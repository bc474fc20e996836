//! Nothing but tests of whole runs, from the bytes in to the bytes out.
#![tactic(auto)]

#[cfg(test)]
mod tests;
