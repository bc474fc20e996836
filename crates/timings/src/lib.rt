//! Every timing: what the moments at which chips apply their updates may change, and what they can't. It has laws alone.
#![tactic(auto)]

pub mod count_laws;
pub mod explain_laws;
pub mod laws;
pub mod outcome_laws;
pub mod worked_laws;
