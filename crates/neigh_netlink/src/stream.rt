//! The messages of a run, as it goes on.
ghost use Rattle.std.specs.Prelude.{◌≡◌, ◌+◌, ◌≤◌, ◌<◌, ◌++◌, [], vec_capacity, IfOk, OnOk, OnErr, length, take, drop, slice_get, Some, if◌then◌else◌};
ghost use Rattle.std.specs.Option.{option_to_list};
ghost use Rattle.br_model.specs.Plane.Chip.{Chip};
ghost use Rattle.br_model.specs.Plane.World.{World, chip_at};
ghost use Rattle.br_model.specs.Table.Change.{address_part, updates};
ghost use Rattle.br_model.specs.Table.Limits.{AreWithin, most_changes};
ghost use Rattle.br_model.specs.declared.change.Change.{Change as ChangeOf};
ghost use Rattle.neigh_netlink.specs.Monitor.{message_of, messages_of, turned};
ghost use Rattle.neigh_netlink.specs.Stream.{entries_after, kept_of, told_by, turn_by, PutsWithin};
ghost use Rattle.open_addressing.specs.Pairs.{by_pair};

use crate::NoMemory;
use crate::entries::Key;
use crate::lasts::{Last, find, none, put, take};
use crate::neigh::Neigh;
use br_model::change::{Change, Kind, Update};
use br_model::domains::Domains;
use br_model::limits::MOST_ADDRESSES;
use br_model::numbers::{Dom, Port};
use open_addressing::map::Numbered;
use std::alloc::Global;
use std::marker::Model;

/// What is kept of the changes so far: how many deferred ones there were, and each entry of their table with the ticket of its last
/// change. An entry that was deleted needs none: no turn that puts it is of its last change.
#[derive(Drop)]
pub struct Stream {
    domains: Domains,
    count: u32,
    // It has its room from the beginning.
    lasts: Numbered<Last>,
}

impl Model for Stream {
    ghost use Rattle.std.specs.Prelude.{◌≡◌};
    ghost use Rattle.br_model.specs.Table.Limits.{most_addresses};
    ghost use Rattle.neigh_netlink.specs.Stream.{Kept};
    ghost use Rattle.open_addressing.specs.Pairs.{by_pair};

    ghost Value = { Kept };

    ghost view = { λ s. record { domains = s.domains; count = s.count; entries = by_pair s.lasts.entries } };

    ghost invariant = { λ s. s.lasts.room ≡ most_addresses };
}

// The entry that a change is of, and the port and the kind that it puts there, none where it deletes the entry.
fn address_part(change: &Change) -> Option<(Key, Option<(Port, Kind)>)>
    ensures { result ≡ address_part change.now }
{
    match *change {
        Change::AddrPut {
            vid,
            mac,
            port,
            kind,
        } => Some(((vid, mac), Some((port, kind)))),
        Change::AddrDel { vid, mac } => Some(((vid, mac), None)),
        _ => None,
    }
}

// The ticket of the next deferred change, behind one that is deferred or not.
fn next_ticket(ticket: u32, deferred: bool) -> u32
    requires { ticket < most_changes }
    ensures { result ≡ (if deferred then ticket + 1 else ticket) }
{
    if deferred { ticket + 1 } else { ticket }
}

// Of the entry at the key.
fn message(new: bool, ticket: u32, key: &Key, port: Port, kind: Kind, offload: bool) -> Neigh
    ensures { result
        ≡ record { new = new; ticket = ticket; vid = key.now.0; mac = key.now.1; port = port; kind = kind; offload = offload } }
{
    let (vid, mac) = *key;
    Neigh {
        new,
        ticket,
        vid,
        mac,
        port,
        kind,
        offload,
    }
}

// A change under this ticket, if it is of an entry. Where it puts one at a new key, there is to be room for it.
fn change(lasts: &mut Numbered<Last>, ticket: u32, change: &Change) -> Option<Neigh>
    requires { PutsWithin (by_pair lasts.old.entries) lasts.old.room (address_part change.now) }
    ensures entries { by_pair lasts.new.entries ≡ entries_after ticket (by_pair lasts.old.entries) (address_part change.now) }
    ensures room { lasts.new.room ≡ lasts.old.room }
    ensures message { result ≡ told_by ticket (by_pair lasts.old.entries) (address_part change.now) }
{
    let (key, stands) = address_part(change)?;
    match stands {
        Some((port, kind)) => {
            put(lasts, &key, Last { ticket, port, kind });
            Some(message(true, ticket, &key, port, kind, false))
        }
        None => {
            let gone = take(lasts, &key)?;
            Some(message(false, ticket, &key, gone.port, gone.kind, false))
        }
    }
}

// Puts the message behind, if there is one. There is to be room for it.
fn push(messages: &mut Vec<Neigh>, message: Option<Neigh>)
    requires { length messages.old.items < vec_capacity messages.old }
    ensures items { messages.new.items ≡ messages.old.items ++ option_to_list message }
    ensures capacity { vec_capacity messages.old ≤ vec_capacity messages.new }
{
    let Some(message) = message else {
        return;
    };
    match messages.push(message) {
        Ok(()) => {}
        Err(_) => unreachable!(),
    }
}

impl Stream {
    /// Before the first change. It takes the memory for all entries that may come.
    pub fn make(alloc: Global, domains: Domains) -> Result<Stream, NoMemory>
        ensures { IfOk result (λ s. s ≡ kept_of domains []) }
    {
        Ok(Stream {
            domains,
            count: 0,
            lasts: none(alloc, MOST_ADDRESSES)?,
        })
    }

    // Goes on by the change at this place of the history.
    fn accept(&mut self, history: &[Change], at: usize) -> Option<Neigh>
        requires within { at < length history.now }
        requires limits { AreWithin history.now }
        requires kept { self.old ≡ kept_of self.old.domains (take at history.now) }
        ensures kept { self.new ≡ kept_of self.old.domains (take (at + 1) history.now) }
        ensures message { (c : ChangeOf) → slice_get history.now at ≡ Some c
            → result ≡ message_of self.old.domains.edition (take at history.now) c }
    {
        let accepted = &history[at];
        let ticket = self.count;
        self.count = next_ticket(ticket, accepted.is_deferred(self.domains.edition()));
        change(&mut self.lasts, ticket, accepted)
    }

    /// Goes on by the changes of the history from the place `from` on, and puts their messages behind `messages`. An `Err` changes
    /// nothing.
    pub fn follow(
        &mut self,
        history: &[Change],
        from: usize,
        messages: &mut Vec<Neigh>,
    ) -> Result<(), NoMemory>
        requires from { from ≤ length history.now }
        requires limits { AreWithin history.now }
        requires kept { self.old ≡ kept_of self.old.domains (take from history.now) }
        ensures kept { OnOk result (self.new ≡ kept_of self.old.domains history.now) }
        ensures messages { OnOk result (messages.new.items
            ≡ messages.old.items ++ messages_of self.old.domains.edition (take from history.now) (drop from history.now)) }
        ensures err { OnErr result ((self.new ≡ self.old) × (messages.new.items ≡ messages.old.items)) }
    {
        messages.reserve(history.len() - from)?;
        for at in from..history.len() {
            let message = self.accept(history, at);
            push(messages, message);
        }
        Ok(())
    }

    /// The message of a turn of the domain's chip, whose next update this is, if it has one: that a chip has an entry.
    pub fn turn(&self, dom: Dom, update: Option<Update>) -> Option<Neigh>
        ensures { (w : World) (chip : Chip) → self.now ≡ kept_of w.setup.domains w.history → chip_at w dom ≡ Some chip
            → update ≡ slice_get (updates w.setup.domains.edition w.history) chip.count → result ≡ turned w (Some chip) }
    {
        self.offload(dom, update)
    }

    // The same, by what is kept.
    fn offload(&self, dom: Dom, update: Option<Update>) -> Option<Neigh>
        ensures { result ≡ turn_by self.now dom update }
    {
        let update = update?;
        let (key, stands) = address_part(&update.change)?;
        let (port, kind) = stands?;
        let last = find(&self.lasts, &key)?;
        if self.domains.of(port) == Some(dom) && last.ticket == update.ticket {
            Some(message(true, update.ticket, &key, port, kind, true))
        } else {
            None
        }
    }
}
