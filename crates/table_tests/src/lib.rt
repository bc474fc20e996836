//! Nothing but tests of the tables on both sides: of the chip's driver, of its rows, pipeline and reports, of the bridge's tables
//! that software looks up in, of its address entries and memberships, of what snooping learned, of marks, notices and sets of
//! ports, and that chip and software decide frames alike.
#![tactic(auto)]

#[cfg(test)]
mod tests;
