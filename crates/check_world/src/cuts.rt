//! The chips of a bridge, by their domains, as their cuts tell them.
ghost use Rattle.std.specs.Prelude.{◌≡◌, ◌+◌, ◌-◌, ◌<◌, ◌≤◌, ◌==◌, [], ◌∷◌, ◌++◌, map, true, IfOk, IsTrue, OnErr, OnOk, length, take, is_some, Some};
ghost use Rattle.std.specs.List.{All, filter, sum_by};
ghost use Rattle.br_model.specs.Plane.Chip.{first_chip, first_chips};
ghost use Rattle.br_model.specs.Table.Domains.{has_chip, last_chip};
ghost use Rattle.br_model.specs.Table.Limits.{AreWithin, fits, most_changes};
ghost use Rattle.check_world.specs.Cuts.{AreCuts, Changed, CutState, IsCut, IsPlace, KeepsTable, chips_of, noted, state_in, told_first, turned, without_hits};

use crate::NoMemory;
use crate::cut::Cut;
use br_model::change::Change;
use br_model::domains::{Domains, Edition};
use br_model::frame::Head;
use br_model::numbers::{Dom, Port};
use std::alloc::Global;
use std::marker::Model;

/// The cut of each domain's chip.
#[derive(Drop)]
pub struct Cuts {
    // Ascending by their domains.
    cuts: Vec<Cut>,
}

impl Model for Cuts {
    ghost use Rattle.std.specs.Prelude.{List};
    ghost use Rattle.check_world.specs.Cuts.{CutState};

    ghost Value = { List CutState };

    ghost view = { λ c. c.cuts.items };
}

/// Adds the cut of the domain with this number, where it has a chip.
fn add(alloc: Global, cuts: &mut Vec<Cut>, number: usize, d: &Domains) -> Result<(), NoMemory>
    requires number { number ≤ last_chip }
    requires stand { All (IsCut d.now.edition []) cuts.old.items }
    ensures stand { All (IsCut d.now.edition []) cuts.new.items }
    ensures chips { OnOk result (chips_of cuts.new.items ≡ chips_of cuts.old.items ++ map first_chip (filter (λ k. has_chip d.now k) (number ∷ []))) }
{
    match Dom::new(number as u8) {
        Some(dom) if d.has_chip(dom) => {
            cuts.push(Cut::make(alloc, dom)?)?;
        }
        _ => {}
    }
    Ok(())
}

impl Cuts {
    /// Those of the domains that have a chip, before any change.
    pub fn make(alloc: Global, domains: &Domains) -> Result<Cuts, NoMemory>
        ensures stand { IfOk result (AreCuts domains.now []) }
        ensures first { IfOk result (λ c. chips_of c ≡ first_chips domains.now) }
    {
        let mut cuts = Vec::new(alloc);
        for number in 1..Dom::PLACES {
            add(alloc, &mut cuts, number, domains)?;
        }
        Ok(Cuts { cuts })
    }

    /// Where the cut of the domain's chip stands.
    fn find(&self, d: Dom) -> Option<usize>
        ensures { IsPlace self.now d result }
    {
        for place in 0..self.cuts.len() {
            if self.cuts[place].dom() == d {
                return Some(place);
            }
        }
        None
    }

    /// Whether the domain has a chip.
    pub fn has(&self, dom: Dom) -> bool
        ensures { result ≡ is_some (state_in self.now dom) }
    {
        self.find(dom).is_some()
    }

    /// Where the cut of the domain's chip stands.
    fn place(&self, d: Dom) -> usize
        requires { is_some (state_in self.now d) ≡ true }
        ensures { IsPlace self.now d (Some result) }
    {
        match self.find(d) {
            Some(place) => place,
            None => unreachable!(),
        }
    }

    /// The cut of the domain's chip.
    pub fn at(&self, dom: Dom) -> &Cut
        requires { is_some (state_in self.now dom) ≡ true }
        ensures { state_in self.now dom ≡ Some result.now }
    {
        &self.cuts[self.place(dom)]
    }

    /// They follow the changes that the history got behind its first `from` ones: each applies the synchronous ones, and the deferred
    /// ones wait.
    pub fn follow(&mut self, domains: &Domains, history: &[Change], from: usize)
        requires from { from ≤ length history.now }
        requires history { AreWithin history.now }
        requires stand { AreCuts domains.now (take from history.now) self.old }
        ensures stand { AreCuts domains.now history.now self.new }
        ensures chips { chips_of self.new ≡ chips_of self.old }
    {
        for place in 0..self.cuts.len() {
            self.cuts[place].follow(history, from, domains.edition());
        }
    }

    /// How many deferred changes of a history with so many each of them hasn't applied, and all together.
    pub fn pending(&self, deferred: u32) -> u32
        requires few { length self.now ≤ last_chip }
        requires applied { All (λ c. c.chip.count ≤ deferred) self.now }
        requires deferred { deferred ≤ most_changes }
        ensures { result ≡ sum_by (λ c. deferred - c.chip.count) self.now }
    {
        let mut pending = 0;
        for cut in &self.cuts {
            pending += deferred - cut.count();
        }
        pending
    }

    /// The domain's chip applies a deferred change, the next one.
    pub fn turn(&mut self, dom: Dom, change: &Change) -> Result<(), NoMemory>
        requires there { is_some (state_in self.old dom) ≡ true }
        requires fits { (c : CutState) → state_in self.old dom ≡ Some c → IsTrue (fits c.table change.now) }
        requires count { (c : CutState) → state_in self.old dom ≡ Some c → c.chip.count < most_changes }
        ensures ok { OnOk result (Changed self.old self.new dom (λ c e. e ≡ turned c change.now)) }
        ensures err { OnErr result (Changed self.old self.new dom KeepsTable) }
    {
        let place = self.place(dom);
        self.cuts[place].turn(change)
    }

    /// The domain's chip notes what a frame at the port leaves.
    pub fn note(&mut self, dom: Dom, port: Port, head: &Head) -> Result<(), NoMemory>
        requires { is_some (state_in self.old dom) ≡ true }
        ensures ok { OnOk result (Changed self.old self.new dom (λ c e. e ≡ noted c port head.now)) }
        ensures err { OnErr result (Changed self.old self.new dom KeepsTable) }
    {
        let place = self.place(dom);
        self.cuts[place].note(port, head)
    }

    /// The oldest report of the domain's chip leaves.
    pub fn drop_report(&mut self, dom: Dom)
        requires { is_some (state_in self.old dom) ≡ true }
        ensures { Changed self.old self.new dom (λ c e. e ≡ told_first c) }
    {
        let place = self.place(dom);
        self.cuts[place].drop_report();
    }

    /// No entry of the domain's chip is hit.
    pub fn clear_hits(&mut self, dom: Dom)
        requires { is_some (state_in self.old dom) ≡ true }
        ensures { Changed self.old self.new dom (λ c e. e ≡ without_hits c) }
    {
        let place = self.place(dom);
        self.cuts[place].clear_hits();
    }
}
