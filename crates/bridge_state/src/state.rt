//! Where a bridge stands: its table, its moments, and its spanning tree.
ghost use Rattle.std.specs.Prelude.{ℕ, ◌≡◌, ◌≤◌, ◌<◌, ◌+◌, true, List, length, ◌^◌, IfOk, IfSome, IsSome, IsTrue, vec_len, vec_capacity};
ghost use Rattle.std.specs.List.{fold};
ghost use Rattle.br_model.specs.Control.Ageing.{stay};
ghost use Rattle.br_model.specs.Control.Control.{Control, first_control, keeps_up};
ghost use Rattle.br_model.specs.Theorems.EndsTied.{IsTied};
ghost use Rattle.br_model.specs.Table.Change.{asks};
ghost use Rattle.br_model.specs.Table.Limits.{fits, all_fit};
ghost use Rattle.br_model.specs.Table.Table.{Table, start, apply};
ghost use Rattle.br_model.specs.Data.Maps.{pair_cmp, get};
ghost use Rattle.br_model.specs.Tree.Tree.{first_tree};
ghost use Rattle.br_model.specs.Wire.Messages.{RecordsStand};
ghost use Rattle.br_model.specs.Control.Snooping.{said};
ghost use Rattle.bridge_state.specs.Plans.{renewed_at};
ghost use Rattle.bridge_state.specs.Hearing.{IsHeard, HasRoom, LeadsTo, most};
ghost use Rattle.bridge_state.specs.Standing.{table_of, control_of, clocked, places};

use crate::addresses::Addresses;
use crate::snooping::{QUERIER_TIME, Speaker};
use br_model::NoMemory;
use br_model::change::Change;
use br_model::frame::McastMsg;
use br_model::numbers::{Mac, Vid};
use fdb_core::Key;
use forward_rules::PortTables;
use mdb_snoop::Mdb;
use std::alloc::Global;
use stp_core::Tree;

/// The last moment, and how long learned entries stay, in milliseconds.
#[derive(Clone, Copy)]
pub struct Clock {
    pub now: u64,
    pub ageing: u64,
}

/// 300 s.
const FIRST_AGEING: u64 = 300_000;

/// The table in two parts, the moments, what snooping learned with its ends, and the spanning tree.
#[derive(Drop)]
pub struct State {
    pub ports: PortTables,
    pub addresses: Addresses,
    pub groups: Mdb,
    pub clock: Clock,
    // It is large, so it stands on the heap: a call pays for the room of its locals.
    pub tree: Box<Tree>,
}

/// The spanning tree of the bridge of this address, in a function of its own, so that no other has room for it.
#[inline(never)]
fn first_tree(alloc: Global, own: Mac) -> Result<Box<Tree>, NoMemory>
    ensures { IfOk result (λ tree. tree.value ≡ first_tree own) }
{
    Ok(Box::new(alloc, Tree::make(own))?)
}

impl State {
    /// Of the bridge of this address.
    pub fn make(alloc: Global, own: Mac) -> Result<State, NoMemory>
        ensures table { IfOk result (λ s. table_of s ≡ start) }
        ensures control { IfOk result (λ s. control_of s ≡ first_control own) }
        ensures tied { IfOk result (λ s. IsTied (table_of s) s.groups) }
    {
        Ok(State {
            ports: PortTables::make(alloc)?,
            addresses: Addresses::make(alloc)?,
            groups: Mdb::make(alloc)?,
            clock: Clock {
                now: 0,
                ageing: FIRST_AGEING,
            },
            tree: first_tree(alloc, own)?,
        })
    }

    /// How long a learned entry stays that no frame renews, in milliseconds.
    pub fn stay(&self) -> u64
        ensures { result ≡ stay (control_of self.now) }
    {
        self.tree.hold().unwrap_or(self.clock.ageing)
    }

    /// Sets the clock, and gives the entry its moment.
    pub fn prepare(&mut self, clock: Clock, renewed: Option<Key>)
        requires { IfSome renewed (λ key. IsSome (get pair_cmp (table_of self.old).addr key)) }
        ensures table { table_of self.new ≡ table_of self.old }
        ensures control { control_of self.new ≡ renewed_at (clocked clock (control_of self.old)) renewed }
    {
        self.clock = clock;
        if let Some((vid, mac)) = renewed {
            self.addresses.renew(vid, mac, clock.now);
        }
    }

    /// Where a learned entry may be over by now, finds the first moment anew.
    pub fn settle(&mut self)
        ensures table { table_of self.new ≡ table_of self.old }
        ensures control { control_of self.new ≡ control_of self.old }
    {
        if self.addresses.may_expire(self.clock.now, self.stay()) {
            self.addresses.settle();
        }
        if self.groups.may_end(self.clock.now) {
            self.groups.settle();
        }
    }

    /// Makes the change, but for what ends.
    #[inline(always)]
    fn place(&mut self, change: &Change)
        requires { IsTrue (fits (table_of self.old) change.now) }
        ensures table { table_of self.new ≡ apply (table_of self.old) change.now }
        ensures control { control_of self.new ≡ places (control_of self.old) change.now }
        ensures now { self.new.clock.now ≡ self.old.clock.now }
    {
        match *change {
            Change::AddrPut {
                vid,
                mac,
                port,
                kind,
            } => self.addresses.put(vid, mac, port, kind, self.clock.now),
            Change::AddrDel { vid, mac } => self.addresses.take(vid, mac),
            _ => self.ports.apply(change),
        }
    }

    /// Makes the change.
    #[inline(always)]
    pub fn apply(&mut self, change: &Change)
        requires fits { IsTrue (fits (table_of self.old) change.now) }
        requires tied { IsTied (table_of self.old) self.old.groups }
        requires early { self.old.clock.now < 2 ^ 53 }
        ensures table { table_of self.new ≡ apply (table_of self.old) change.now }
        ensures control { control_of self.new ≡ keeps_up (control_of self.old) change.now }
        ensures tied { IsTied (table_of self.new) self.new.groups }
    {
        self.place(change);
        follow_ends(&mut self.groups, self.clock.now, change);
    }

    /// Makes the changes, one after another.
    #[inline(always)]
    pub fn follow(&mut self, changes: &[Change])
        requires fits { IsTrue (all_fit (table_of self.old) changes.now) }
        requires tied { IsTied (table_of self.old) self.old.groups }
        requires early { self.old.clock.now < 2 ^ 53 }
        ensures table { table_of self.new ≡ fold apply (table_of self.old) changes.now }
        ensures control { control_of self.new ≡ fold keeps_up (control_of self.old) changes.now }
        ensures tied { IsTied (table_of self.new) self.new.groups }
    {
        for change in changes {
            self.apply(change);
        }
    }

    /// Makes the changes but for what ends, one after another.
    fn place_all(&mut self, changes: &[Change])
        requires { IsTrue (all_fit (table_of self.old) changes.now) }
        ensures table { table_of self.new ≡ fold apply (table_of self.old) changes.now }
        ensures control { control_of self.new ≡ fold places (control_of self.old) changes.now }
        ensures now { self.new.clock.now ≡ self.old.clock.now }
    {
        for change in changes {
            self.place(change);
        }
    }

    /// Does what the message in these bytes says, and adds its changes to those that were just made.
    pub fn hear(
        &mut self,
        speaker: &Speaker,
        bytes: &[u8],
        message: &McastMsg,
        changes: &mut Vec<Change>,
    )
        requires speaker { IsHeard self.old speaker.now }
        requires tied { IsTied (table_of self.old) self.old.groups }
        requires early { self.old.clock.now < 2 ^ 53 }
        requires records { RecordsStand bytes.now message.now }
        requires room { vec_len changes.old + most message.now ≤ vec_capacity changes.old }
        ensures adds { LeadsTo self.old self.new changes.old.items changes.new.items (said speaker.now.port speaker.now.vid bytes.now message.now) }
        ensures table { (t : Table) → fold apply t changes.old.items ≡ table_of self.old → fold apply t changes.new.items ≡ table_of self.new }
        ensures fits { (t : Table) → fold apply t changes.old.items ≡ table_of self.old → all_fit t changes.old.items ≡ true
            → all_fit t changes.new.items ≡ true }
        ensures tied { IsTied (table_of self.new) self.new.groups }
        ensures now { self.new.clock.now ≡ self.old.clock.now }
        ensures count { length changes.new.items ≤ length changes.old.items + most message.now }
    {
        let from = changes.len();
        speaker.says(&mut self.groups, bytes, message, changes);
        self.place_all(&changes[from..]);
    }
}

/// Lets the ends follow a change that was made at the moment `now`.
fn follow_ends(groups: &mut Mdb, now: u64, change: &Change)
    requires room { HasRoom groups.old (asks change.now) }
    requires early { now < 2 ^ 53 }
    ensures { (c : Control) → c.now ≡ now → c.ends ≡ groups.old → (keeps_up c change.now).ends ≡ groups.new }
{
    match *change {
        Change::GroupJoin { port, vid, group } => groups.join(vid, group, port, None),
        Change::GroupPart { port, vid, group } => {
            groups.part(vid, group, port);
        }
        Change::Router { port, on: true } => {
            groups.router_seen(port, now + QUERIER_TIME);
        }
        Change::Router { port, on: false } => {
            groups.router_gone(port);
        }
        Change::Querier { six, on: true } => {
            groups.querier_seen(six, now + QUERIER_TIME);
        }
        Change::Querier { six, on: false } => {
            groups.querier_gone(six);
        }
        _ => {}
    }
}
