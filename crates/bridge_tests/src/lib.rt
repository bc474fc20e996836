//! Nothing but tests of the bridge: worked runs, limits and random events, the spanning tree's runs, frames, messages of the
//! spanning tree, of IGMP and of MLD; and of the querier beside it.
#![tactic(auto)]

#[cfg(test)]
mod tests;
