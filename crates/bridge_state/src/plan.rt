//! What an event comes to, before any of it is done.
ghost use Rattle.std.specs.Prelude.{◌≡◌, None, []};

use crate::state::Clock;
use br_model::change::Change;
use br_model::tree::TreeEvent;
use fdb_core::Key;
use std::alloc::Global;

/// What is to be done, in this order.
#[derive(Drop)]
pub struct Plan {
    /// The clock is set.
    pub clock: Clock,
    /// The entry at this address gets the clock's moment.
    pub renewed: Option<Key>,
    /// These changes are made.
    pub changes: Vec<Change>,
    /// The spanning tree is told this.
    pub tree_event: Option<TreeEvent>,
}

impl Plan {
    /// Nothing is done, but that the spanning tree is told this, if anything.
    pub fn telling(alloc: Global, clock: Clock, tree_event: Option<TreeEvent>) -> Plan
        ensures clock { result.clock ≡ clock }
        ensures renewed { result.renewed ≡ None }
        ensures changes { result.changes.items ≡ [] }
        ensures told { result.tree_event ≡ tree_event }
    {
        Plan {
            clock,
            renewed: None,
            changes: Vec::new(alloc),
            tree_event,
        }
    }
}
