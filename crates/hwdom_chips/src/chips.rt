//! The chips of a bridge, by their domains.
ghost use Rattle.std.specs.Prelude.{◌≡◌, ◌+◌, ◌-◌, ◌*◌, ◌<◌, ◌≤◌, ◌==◌, [], ◌∷◌, ◌++◌, map, true, IfOk, OnOk, length, take, is_some, slice_get, Some};
ghost use Rattle.std.specs.Borrow.{sem};
ghost use Rattle.std.specs.List.{All, filter, sum_by};
ghost use Rattle.br_model.specs.Plane.Chip.{first_chip, first_chips};
ghost use Rattle.br_model.specs.Table.Domains.{has_chip, last_chip};
ghost use Rattle.br_model.specs.Table.Limits.{AreWithin, most_changes};
ghost use Rattle.hwdom_chips.specs.Chips.{AreChips, IsChip, IsPlace, chips_of, state_in};
ghost use Rattle.hwdom_chips.specs.Lending.{LendsChip};

use crate::NoMemory;
use crate::chip::Chip;
use br_model::change::Change;
use br_model::domains::Domains;
use br_model::numbers::Dom;
use std::alloc::Global;
use std::marker::Model;

/// A chip for each domain that has one.
#[derive(Drop)]
pub struct Chips {
    // Ascending by their domains.
    chips: Vec<Chip>,
}

impl Model for Chips {
    ghost use Rattle.std.specs.Prelude.{List};
    ghost use Rattle.hwdom_chips.specs.Chips.{ChipState};

    ghost Value = { List ChipState };

    ghost view = { λ c. c.chips.items };
}

/// Adds the chip of the domain with this number, where it has one.
fn add(alloc: Global, chips: &mut Vec<Chip>, number: usize, d: &Domains) -> Result<(), NoMemory>
    requires number { number ≤ last_chip }
    requires stand { All (IsChip d.now []) chips.old.items }
    ensures stand { All (IsChip d.now []) chips.new.items }
    ensures chips { OnOk result (chips_of chips.new.items ≡ chips_of chips.old.items ++ map first_chip (filter (λ k. has_chip d.now k) (number ∷ []))) }
{
    match Dom::new(number as u8) {
        Some(dom) if d.has_chip(dom) => {
            chips.push(Chip::make(alloc, dom, d)?)?;
        }
        _ => {}
    }
    Ok(())
}

impl Chips {
    /// Those of the domains that have one, before any change.
    pub fn make(alloc: Global, domains: &Domains) -> Result<Chips, NoMemory>
        ensures stand { IfOk result (AreChips domains.now []) }
        ensures first { IfOk result (λ c. chips_of c ≡ first_chips domains.now) }
    {
        let mut chips = Vec::new(alloc);
        for number in 1..Dom::PLACES {
            add(alloc, &mut chips, number, domains)?;
        }
        Ok(Chips { chips })
    }

    /// Where the chip of the domain stands.
    fn find(&self, d: Dom) -> Option<usize>
        ensures { IsPlace self.now d result }
    {
        for place in 0..self.chips.len() {
            if self.chips[place].dom() == d {
                return Some(place);
            }
        }
        None
    }

    /// Whether the domain has a chip.
    pub fn has(&self, dom: Dom) -> bool
        ensures { result ≡ is_some (state_in self.now dom) }
    {
        self.find(dom).is_some()
    }

    /// Where the chip of the domain stands.
    pub fn place(&self, dom: Dom) -> usize
        requires { is_some (state_in self.now dom) ≡ true }
        ensures { IsPlace self.now dom (Some result) }
    {
        match self.find(dom) {
            Some(place) => place,
            None => unreachable!(),
        }
    }

    /// The chip of the domain.
    pub fn at(&self, dom: Dom) -> &Chip
        requires { is_some (state_in self.now dom) ≡ true }
        ensures { state_in self.now dom ≡ Some result.now }
    {
        &self.chips[self.place(dom)]
    }

    /// The chip at the place.
    pub fn at_mut(&mut self, place: usize) -> &mut Chip
        requires { place < length self.old }
        ensures* lends { sem 𝓛 (LendsChip self.entry place result) }
        ensures value { slice_get self.old place ≡ Some result.now }
    {
        &mut self.chips[place]
    }

    /// They follow the changes that the history got behind its first `from` ones: each driver is told of the synchronous ones, and
    /// the deferred ones wait.
    pub fn follow(&mut self, domains: &Domains, history: &[Change], from: usize)
        requires from { from ≤ length history.now }
        requires history { AreWithin history.now }
        requires stand { AreChips domains.now (take from history.now) self.old }
        ensures stand { AreChips domains.now history.now self.new }
        ensures chips { chips_of self.new ≡ chips_of self.old }
    {
        for place in 0..self.chips.len() {
            self.chips[place].follow(domains, history, from);
        }
    }

    /// How many deferred changes of a history with so many each of them hasn't applied, and all together.
    pub fn pending(&self, deferred: u32) -> u32
        requires few { length self.now ≤ last_chip }
        requires applied { All (λ c. c.chip.count ≤ deferred) self.now }
        requires deferred { deferred ≤ most_changes }
        ensures { result ≡ sum_by (λ c. deferred - c.chip.count) self.now }
    {
        let mut pending = 0;
        for chip in &self.chips {
            pending += deferred - chip.count();
        }
        pending
    }
}
