//! `mdb add`, `mdb del`, `snooping`.
ghost use Rattle.std.specs.Prelude.{◌≡◌, IfSome, is_some};
ghost use Rattle.br_model.specs.Control.Commands.Groups.{is_a_group, group_of, mdb_add, mdb_del, snooping};
ghost use Rattle.bridge_state.specs.Answers.{Answers};
ghost use Rattle.bridge_state.specs.Standing.{table_of};

use crate::commands::ports::is_down;
use crate::faults::EventFault;
use crate::state::State;
use br_model::change::Change;
use br_model::group::{Group, Ip};
use br_model::numbers::{Port, Vid};
use br_model::steps::Refusal;
use std::alloc::Global;

/// The group that the address names, if it can have members: it is multicast, and not always flooded.
fn named(address: Ip) -> Option<Group>
    ensures found { is_some result ≡ is_a_group address }
    ensures value { IfSome result (λ group. group ≡ group_of address) }
{
    let group = match address {
        Ip::V4(n) => Group::v4(n)?,
        Ip::V6(n) => Group::v6(n)?,
    };
    if group.is_link_local() {
        None
    } else {
        Some(group)
    }
}

/// The port becomes a member of the group in the VLAN, without an end.
pub fn mdb_add(
    alloc: Global,
    state: &State,
    port: Port,
    vid: Vid,
    address: Ip,
) -> Result<Vec<Change>, EventFault>
    ensures { Answers result (mdb_add (table_of state.now) port vid address) }
{
    if is_down(state, port) {
        return Err(EventFault::Refused(Refusal::PortNotUp));
    }
    let Some(group) = named(address) else {
        return Err(EventFault::Refused(Refusal::NotAGroup));
    };
    if !state.ports.member(port, vid) {
        return Err(EventFault::Refused(Refusal::NotMember));
    }
    if state.ports.is_joined(port, vid, group) {
        return Err(EventFault::Refused(Refusal::Exists));
    }
    if !state.ports.has_room(vid, group) {
        return Err(EventFault::Refused(Refusal::GroupsFull));
    }
    Ok(Vec::from_slice(alloc, &[Change::GroupJoin { port, vid, group }])?)
}

/// The port is a member of the group in the VLAN no more, whether the membership had an end or not.
pub fn mdb_del(
    alloc: Global,
    state: &State,
    port: Port,
    vid: Vid,
    address: Ip,
) -> Result<Vec<Change>, EventFault>
    ensures { Answers result (mdb_del (table_of state.now) port vid address) }
{
    if is_down(state, port) {
        return Err(EventFault::Refused(Refusal::PortNotUp));
    }
    let Some(group) = named(address) else {
        return Err(EventFault::Refused(Refusal::NotAGroup));
    };
    if !state.ports.is_joined(port, vid, group) {
        return Err(EventFault::Refused(Refusal::Absent));
    }
    Ok(Vec::from_slice(alloc, &[Change::GroupPart { port, vid, group }])?)
}

/// Snooping is switched on or off; what it learned stays.
pub fn snooping(alloc: Global, state: &State, on: bool) -> Result<Vec<Change>, EventFault>
    ensures { Answers result (snooping (table_of state.now) on) }
{
    if on == state.ports.snoop() {
        return Ok(Vec::new(alloc));
    }
    Ok(Vec::from_slice(alloc, &[Change::Snoop(on)])?)
}
