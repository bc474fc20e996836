//! What a frame teaches: behind which port its source is.
ghost use Rattle.std.specs.Prelude.{◌≡◌, ◌<◌, ◌^◌, ℕ, None, Some, Ok, IfOk, [], ◌∷◌, true};
ghost use Rattle.std.specs.List.{list_all};
ghost use Rattle.br_model.specs.declared.change.Change.TheVariants.{AddrPut};
ghost use Rattle.br_model.specs.declared.change.Kind.TheVariants.{Learned};
ghost use Rattle.br_model.specs.Control.Learning.{Address, teach, is_reserved};
ghost use Rattle.br_model.specs.Control.Reaction.{learns, learns_of};
ghost use Rattle.br_model.specs.Data.Maps.{get, pair_cmp};
ghost use Rattle.br_model.specs.Table.Change.{is_of_address};
ghost use Rattle.bridge_state.specs.Lessons.{IsTaught, is_taken, lesson_of, of_bridge, renewed_by};
ghost use Rattle.bridge_state.specs.Plans.{PlansAt};
ghost use Rattle.bridge_state.specs.Standing.{control_of, course_at, table_of};

use crate::faults::EventFault;
use crate::plan::Plan;
use crate::state::State;
use br_model::NoMemory;
use br_model::change::{Change, Kind};
use br_model::domains::Domains;
use br_model::frame::Head;
use br_model::numbers::{Dom, Mac, Port, Vid};
use fdb_core::Key;
use std::alloc::Global;

/// What an address behind a port comes to.
#[derive(Clone, Copy)]
pub enum Lesson {
    /// Nothing: its entry doesn't move, or there is no room for it.
    Known,
    /// The entry at the port is renewed.
    Renewed,
    /// There is an entry at the port from now on.
    News,
}

/// Whether frames to the destination teach nothing.
fn is_reserved(state: &State, head: &Head) -> bool
    ensures { result ≡ is_reserved (table_of state.now) head.now }
{
    let address = head.dst.number();
    address == Mac::PAUSE_ADDRESS
        || head.dst.is_for_the_host()
        || (address == Mac::BRIDGE_GROUP_ADDRESS && state.ports.stp())
}

/// What the frame teaches at the port, where it teaches.
fn teach(state: &State, port: Port, head: &Head) -> Option<Key>
    ensures { result ≡ teach (table_of state.now) port head.now }
{
    if is_reserved(state, head) || !head.has_valid_source() {
        return None;
    }
    match state.ports.vlan_of(port, head) {
        Some(vid) if state.ports.may_teach(port, vid) => Some((vid, head.src)),
        Some(_) | None => None,
    }
}

/// What an address behind the port comes to, which has this entry.
fn lesson_by(state: &State, entry: Option<(Port, Kind)>, port: Port) -> Lesson
    ensures { (key : Address) → entry ≡ get pair_cmp (table_of state.now).addr key → result ≡ lesson_of (table_of state.now) key port }
{
    match entry {
        None if state.addresses.is_full() => Lesson::Known,
        None => Lesson::News,
        Some((_, Kind::Local | Kind::Static)) => Lesson::Known,
        Some((other, Kind::Learned | Kind::Extern)) if other == port => Lesson::Renewed,
        Some((_, Kind::Learned | Kind::Extern)) => Lesson::News,
    }
}

/// What the address behind the port comes to.
pub fn lesson_of(state: &State, vid: Vid, mac: Mac, port: Port) -> Lesson
    ensures { result ≡ lesson_of (table_of state.now) (vid, mac) port }
{
    lesson_by(state, state.addresses.find(vid, mac), port)
}

/// What the address behind the port comes to. Its entry has the clock's moment from now on, where it is renewed.
pub fn learn(state: &mut State, vid: Vid, mac: Mac, port: Port) -> Lesson
    ensures lesson { result ≡ lesson_of (table_of state.old) (vid, mac) port }
    ensures table { table_of state.new ≡ table_of state.old }
    ensures control { control_of state.new ≡ renewed_by result (vid, mac) (control_of state.old) }
{
    let now = state.clock.now;
    let entry = state.addresses.renew_at(vid, mac, port, now);
    lesson_by(state, entry, port)
}

/// Whether a chip's report that the address is behind the port is taken.
pub fn is_taken(state: &State, vid: Vid, mac: Mac, port: Port) -> bool
    ensures { result ≡ is_taken (table_of state.now) (vid, mac) port }
{
    if !state.ports.may_teach(port, vid) {
        return false;
    }
    match state.addresses.find(vid, mac) {
        None => !state.addresses.is_full(),
        Some((_, Kind::Local | Kind::Static)) => false,
        Some((_, Kind::Learned)) => true,
        Some((other, Kind::Extern)) => other != port,
    }
}

/// The address that the frame teaches software.
#[inline(always)]
pub fn taught(domains: &Domains, state: &State, port: Port, head: &Head) -> Option<Key>
    ensures { IsTaught domains.now (table_of state.now) port head.now result }
{
    if domains.of(port) != Some(Dom::SOFTWARE) {
        return None;
    }
    teach(state, port, head)
}

/// An address behind a port is new there.
fn puts(alloc: Global, state: &State, port: Port, vid: Vid, mac: Mac) -> Result<Plan, NoMemory>
    ensures clock { IfOk result (λ plan. plan.clock ≡ state.now.clock) }
    ensures renewed { IfOk result (λ plan. plan.renewed ≡ None) }
    ensures changes { IfOk result (λ plan. plan.changes.items ≡ AddrPut vid mac port Learned ∷ []) }
    ensures told { IfOk result (λ plan. plan.tree_event ≡ None) }
{
    let put = Change::AddrPut {
        vid,
        mac,
        port,
        kind: Kind::Learned,
    };
    Ok(Plan {
        clock: state.clock,
        renewed: None,
        changes: Vec::from_slice(alloc, &[put])?,
        tree_event: None,
    })
}

/// What it comes to that the address is seen behind the port.
fn learns(alloc: Global, state: &State, port: Port, vid: Vid, mac: Mac) -> Result<Plan, EventFault>
    requires { state.now.clock.now < 2 ^ 53 }
    ensures told { IfOk result (λ plan. plan.tree_event ≡ None) }
    ensures clock { IfOk result (λ plan. plan.clock ≡ state.now.clock) }
    ensures addresses { IfOk result (λ plan. list_all is_of_address plan.changes.items ≡ true) }
    ensures plans { PlansAt state.now result (Ok (learns port (Some (vid, mac)) (course_at state.now))) }
{
    match lesson_of(state, vid, mac, port) {
        Lesson::Known => Ok(Plan::telling(alloc, state.clock, None)),
        Lesson::Renewed => Ok(Plan {
            clock: state.clock,
            renewed: Some((vid, mac)),
            changes: Vec::new(alloc),
            tree_event: None,
        }),
        Lesson::News => Ok(puts(alloc, state, port, vid, mac)?),
    }
}

/// What the sight of a frame teaches, where more is to be done than that.
pub fn teaches(
    alloc: Global,
    domains: &Domains,
    state: &State,
    port: Port,
    head: &Head,
) -> Result<Plan, EventFault>
    requires { state.now.clock.now < 2 ^ 53 }
    ensures told { IfOk result (λ plan. plan.tree_event ≡ None) }
    ensures clock { IfOk result (λ plan. plan.clock ≡ state.now.clock) }
    ensures addresses { IfOk result (λ plan. list_all is_of_address plan.changes.items ≡ true) }
    ensures plans { (own : ℕ) → PlansAt state.now result (Ok (learns_of (of_bridge domains.now own) port head.now (course_at state.now))) }
{
    match taught(domains, state, port, head) {
        Some(key) => learns(alloc, state, port, key.0, key.1),
        None => Ok(Plan::telling(alloc, state.clock, None)),
    }
}
