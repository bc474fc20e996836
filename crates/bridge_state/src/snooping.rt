//! What a message of IGMP and MLD does: who is a member, where a router is, and until when.
ghost use Rattle.std.specs.Prelude.{ℕ, ◌≡◌, ◌+◌, ◌++◌, ◌≤◌, ◌<◌, ◌^◌, true, [], List, length, IfSome, vec_len, vec_capacity};
ghost use Rattle.std.specs.List.{fold};
ghost use Rattle.br_model.specs.Control.Course.{Course};
ghost use Rattle.br_model.specs.Wire.Messages.{message as message_in, RecordsStand};
ghost use Rattle.br_model.specs.Control.Snooping.{acted, fastleave, joins, leaves, querier_heard, queried, router_heard, said, snoops};
ghost use Rattle.br_model.specs.Table.Table.{with_addresses};
ghost use Rattle.br_model.specs.Forward.Targets.{has_flag};
ghost use Rattle.bridge_state.specs.Hearing.{Adds, IsHeard, Leads, list_of, most, snoops_by};
ghost use Rattle.bridge_state.specs.Standing.{table_of};

use crate::commands::flags_of;
use crate::state::State;
use br_model::change::{Change, Flags};
use br_model::frame::{Act, Head, McastMsg};
use br_model::group::Group;
use br_model::numbers::{Port, Vid};
use igmp_mld::Records;
use mdb_snoop::Mdb;

/// How long a report holds, a query, and a membership after a leave, in milliseconds.
const MEMBER_TIME: u64 = 260_000;

pub const QUERIER_TIME: u64 = 255_000;

const LEAVE_TIME: u64 = 2_000;

/// Who says a message: a port in a VLAN.
#[derive(Clone, Copy)]
pub struct Speaker {
    /// When, in milliseconds.
    pub moment: u64,
    pub port: Port,
    pub vid: Vid,
    /// Whether a leave is done at once.
    pub fastleave: bool,
}

/// How many changes the message makes at most.
pub fn most_changes(message: &McastMsg) -> usize
    ensures most { result ≡ most message.now }
    ensures few { result < 2 ^ 16 }
{
    match message {
        McastMsg::Records { count, .. } => usize::from(*count),
        McastMsg::Query { .. } => 2,
        McastMsg::Report(_) | McastMsg::Leave(_) => 1,
        McastMsg::Plain | McastMsg::Payload(_) | McastMsg::Unrecognized => 0,
    }
}

/// Whether the port has the flag `fastleave`.
fn leaves_fast(state: &State, port: Port) -> bool
    ensures { result ≡ has_flag (table_of state.now) port fastleave }
{
    flags_of(state, port) >> Flags::FASTLEAVE & 1 == 1
}

/// Who says the frame's message, where the port admits it, snooping is on, and the message may change something.
pub fn who_speaks(state: &State, port: Port, head: &Head, message: &McastMsg) -> Option<Speaker>
    ensures heard { (r : Course) → (bytes : List ℕ) → message.now ≡ message_in bytes head.now
        → with_addresses r.table [] ≡ with_addresses (table_of state.now) [] → snoops port bytes head.now r ≡ snoops_by result bytes message.now r }
    ensures speaker { IfSome result (λ s. IsHeard state.now s) }
    ensures port { IfSome result (λ s. s.port ≡ port) }
    ensures something { IfSome result (λ s. 0 < most message.now) }
{
    if !state.ports.snoop() || most_changes(message) == 0 {
        return None;
    }
    let vid = state.ports.admit(port, head)?;
    Some(Speaker {
        moment: state.clock.now,
        port,
        vid,
        fastleave: leaves_fast(state, port),
    })
}

impl Speaker {
    /// A report, or a record that joins. A membership that was made by command stays as it is.
    fn join(&self, groups: &mut Mdb, group: Group) -> Option<Change>
        requires { self.now.moment < 2 ^ 53 }
        ensures { Leads self.now groups.old groups.new (list_of result) (joins self.now.port self.now.vid group) }
    {
        let (vid, port) = (self.vid, self.port);
        if group.is_link_local() || !groups.has_room(vid, group) {
            return None;
        }
        let end = Some(self.moment + MEMBER_TIME);
        if !groups.has(vid, group, port) {
            groups.join(vid, group, port, end);
            return Some(Change::GroupJoin { port, vid, group });
        }
        if !groups.dynamic(vid, group, port) {
            return None;
        }
        groups.join(vid, group, port, end);
        None
    }

    /// A leave, or a record that leaves: of a membership that ends.
    fn leave(&self, groups: &mut Mdb, group: Group) -> Option<Change>
        requires { self.now.moment < 2 ^ 53 }
        ensures { Leads self.now groups.old groups.new (list_of result) (leaves self.now.port self.now.vid group) }
    {
        let (vid, port) = (self.vid, self.port);
        if !groups.dynamic(vid, group, port) {
            return None;
        }
        if self.fastleave {
            groups.part(vid, group, port);
            return Some(Change::GroupPart { port, vid, group });
        }
        groups.leave_soon(vid, group, port, self.moment + LEAVE_TIME);
        None
    }

    fn act(&self, groups: &mut Mdb, act: Act) -> Option<Change>
        requires { self.now.moment < 2 ^ 53 }
        ensures { Leads self.now groups.old groups.new (list_of result) (λ r. acted self.now.port self.now.vid r act) }
    {
        match act {
            Act::Join(group) => self.join(groups, group),
            Act::Part(group) => self.leave(groups, group),
            Act::Nothing => None,
        }
    }

    fn querier(&self, groups: &mut Mdb, six: bool) -> Option<Change>
        requires { self.now.moment < 2 ^ 53 }
        ensures { Leads self.now groups.old groups.new (list_of result) (querier_heard six) }
    {
        if groups.querier_seen(six, self.moment + QUERIER_TIME) {
            return Some(Change::Querier { six, on: true });
        }
        None
    }

    fn router(&self, groups: &mut Mdb) -> Option<Change>
        requires { self.now.moment < 2 ^ 53 }
        ensures { Leads self.now groups.old groups.new (list_of result) (router_heard self.now.port) }
    {
        if groups.router_seen(self.port, self.moment + QUERIER_TIME) {
            return Some(Change::Router {
                port: self.port,
                on: true,
            });
        }
        None
    }

    /// A query that is counted.
    fn query(&self, groups: &mut Mdb, six: bool, changes: &mut Vec<Change>)
        requires early { self.now.moment < 2 ^ 53 }
        requires room { vec_len changes.old + 2 ≤ vec_capacity changes.old }
        ensures adds { Adds self.now groups.old groups.new changes.old.items changes.new.items (queried self.now.port six true) }
        ensures count { length changes.new.items ≤ length changes.old.items + 2 }
    {
        let querier = self.querier(groups, six);
        add(changes, querier);
        let router = self.router(groups);
        add(changes, router);
    }

    /// Records, one after another.
    fn records(&self, groups: &mut Mdb, records: Records<'_>, changes: &mut Vec<Change>)
        requires early { self.now.moment < 2 ^ 53 }
        requires room { vec_len changes.old + length records ≤ vec_capacity changes.old }
        ensures adds { Adds self.now groups.old groups.new changes.old.items changes.new.items (λ r. fold (acted self.now.port self.now.vid) r records.entry) }
        ensures count { length changes.new.items ≤ length changes.old.items + length records.entry }
    {
        for act in records {
            let change = self.act(groups, act);
            add(changes, change);
        }
    }

    /// Does to the ends what the message in these bytes says, and adds the changes that it makes.
    pub fn says(
        &self,
        groups: &mut Mdb,
        bytes: &[u8],
        message: &McastMsg,
        changes: &mut Vec<Change>,
    )
        requires early { self.now.moment < 2 ^ 53 }
        requires records { RecordsStand bytes.now message.now }
        requires room { vec_len changes.old + most message.now ≤ vec_capacity changes.old }
        ensures adds { Adds self.now groups.old groups.new changes.old.items changes.new.items (said self.now.port self.now.vid bytes.now message.now) }
        ensures count { length changes.new.items ≤ length changes.old.items + most message.now }
    {
        match *message {
            McastMsg::Query { six, counted } => {
                if counted {
                    self.query(groups, six, changes);
                }
            }
            McastMsg::Report(group) => {
                let change = self.join(groups, group);
                add(changes, change);
            }
            McastMsg::Leave(group) => {
                let change = self.leave(groups, group);
                add(changes, change);
            }
            McastMsg::Records { six, first, count } => {
                self.records(groups, Records::of(bytes, six, first, count), changes);
            }
            McastMsg::Plain => {}
            McastMsg::Payload(_) => {}
            McastMsg::Unrecognized => {}
        }
    }
}

/// Adds the change, if there is one.
fn add(changes: &mut Vec<Change>, change: Option<Change>)
    requires { vec_len changes.old < vec_capacity changes.old }
    ensures items { changes.new.items ≡ changes.old.items ++ list_of change }
    ensures length { vec_len changes.new ≤ vec_len changes.old + 1 }
    ensures capacity { vec_capacity changes.new ≡ vec_capacity changes.old }
{
    if let Some(change) = change {
        changes.push_reserved(change);
    }
}
