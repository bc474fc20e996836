//! The deferred changes of a history by their tickets.
ghost use Rattle.std.specs.Prelude.{◌≡◌, ◌++◌, ◌∷◌, ◌<◌, ◌≤◌, [], length, take, IfOk, slice_get, ◌==◌, if◌then◌else◌};
ghost use Rattle.br_model.specs.declared.domains.Edition.{Edition as EditionValue};
ghost use Rattle.br_model.specs.Table.Change.{deferred, updates};
ghost use Rattle.br_model.specs.Table.Limits.{most_changes};
ghost use Rattle.plane_parts.specs.Places.{places};

use crate::NoMemory;
use br_model::change::{Change, Update};
use br_model::domains::Edition;
use br_model::limits::MOST_CHANGES;
use std::alloc::Global;
use std::marker::Model;

/// Where the deferred changes stand in a history, so that none of them need be sought.
#[derive(Drop)]
pub struct Updates {
    // It has its room from the beginning.
    places: Vec<u32>,
}

impl Model for Updates {
    ghost use Rattle.std.specs.Prelude.{◌≡◌, ◌≤◌, ℕ, List, length};
    ghost use Rattle.std.specs.Vec.{vec_capacity};
    ghost use Rattle.br_model.specs.Table.Limits.{most_changes};

    ghost Value = { List ℕ };

    ghost view = { λ u. u.places.items };

    ghost invariant = { λ u. (most_changes ≤ vec_capacity u.places) × (length u.places.items ≤ most_changes) };
}

impl Updates {
    /// Those of a history without changes. It takes the room for all that there can be.
    pub fn make(alloc: Global) -> Result<Updates, NoMemory>
        ensures { IfOk result (λ u. u ≡ []) }
    {
        Ok(Updates {
            places: Vec::with_capacity(alloc, MOST_CHANGES)?,
        })
    }

    /// How many there are.
    pub fn len(&self) -> usize
        ensures value { result ≡ length self.now }
        ensures few { length self.now ≤ most_changes }
    {
        self.places.len()
    }

    pub fn is_empty(&self) -> bool
        ensures { result ≡ (length self.now == 0) }
    {
        self.places.is_empty()
    }

    /// Notes the change that stands at this place, behind those that are noted.
    #[inline(always)]
    fn note(&mut self, change: &Change, place: u32, edition: Edition)
        requires { length self.old < most_changes }
        ensures { self.new ≡ (if deferred edition change.now then self.old ++ place ∷ [] else self.old) }
    {
        if change.is_deferred(edition) {
            match self.places.push(place) {
                Ok(()) => {}
                Err(_) => unreachable!(),
            }
        }
    }

    /// Notes the changes that a history got behind its first `from` ones.
    #[inline(always)]
    pub fn follow(&mut self, history: &[Change], from: usize, edition: Edition)
        requires from { from ≤ length history.now }
        requires few { length history.now ≤ most_changes }
        requires noted { self.old ≡ places edition (take from history.now) }
        ensures { self.new ≡ places edition history.now }
    {
        for place in from..history.len() {
            self.note(&history[place], place as u32, edition);
        }
    }

    /// The deferred change of the history with this ticket.
    pub fn get(&self, history: &[Change], ticket: u32) -> Option<Update>
        requires { (edition : EditionValue) × (self.now ≡ places edition history.now) }
        ensures { (edition : EditionValue) → self.now ≡ places edition history.now → result ≡ slice_get (updates edition history.now) ticket }
    {
        let place = *self.places.get(ticket as usize)?;
        Some(Update {
            ticket,
            change: history[place as usize],
        })
    }
}
