//! `port up`, `port down`, `link`.
ghost use Rattle.std.specs.Prelude.{◌≡◌, ◌<◌, IfOk};
ghost use Rattle.br_model.specs.Control.Commands.Ports.{is_down, port_up, port_down, goes_down, link, flags_with, flags_of};
ghost use Rattle.bridge_state.specs.Answers.{Answers, AnswersOne};
ghost use Rattle.bridge_state.specs.Standing.{table_of};

use crate::commands::drops::{drop_addresses, drop_groups, drop_router, drop_vlans};
use crate::faults::EventFault;
use crate::state::State;
use br_model::NoMemory;
use br_model::change::{Change, Flags};
use br_model::numbers::{Port, Vid};
use br_model::steps::Refusal;
use std::alloc::Global;

/// Whether the port isn't up. The host is never down.
pub fn is_down(state: &State, port: Port) -> bool
    ensures { result ≡ is_down (table_of state.now) port }
{
    !port.is_host() && !state.ports.is_up(port)
}

/// The port comes up: a member of VLAN 1, untagged, its PVID. Its state is the spanning tree's.
pub fn port_up(alloc: Global, state: &State, port: Port) -> Result<Vec<Change>, EventFault>
    ensures { Answers result (port_up (table_of state.now) port) }
{
    if state.ports.is_up(port) {
        return Err(EventFault::Refused(Refusal::PortIsUp));
    }
    let changes = [
        Change::PortUp(port),
        Change::VlanAdd {
            port,
            vid: Vid::DEFAULT,
            untagged: true,
            pvid: true,
        },
    ];
    Ok(Vec::from_slice(alloc, &changes)?)
}

/// All that the port has, and then the port.
fn goes_down(alloc: Global, state: &State, port: Port) -> Result<Vec<Change>, NoMemory>
    ensures { IfOk result (λ changes. changes.items ≡ goes_down (table_of state.now) port) }
{
    let mut changes = Vec::new(alloc);
    drop_addresses(alloc, &mut changes, state, None, port)?;
    drop_groups(alloc, &mut changes, state, None, port)?;
    drop_vlans(alloc, &mut changes, state, port)?;
    drop_router(&mut changes, state, port)?;
    changes.push(Change::PortDown(port))?;
    Ok(changes)
}

/// The port goes down.
pub fn port_down(alloc: Global, state: &State, port: Port) -> Result<Vec<Change>, EventFault>
    ensures { Answers result (port_down (table_of state.now) port) }
{
    if is_down(state, port) {
        return Err(EventFault::Refused(Refusal::PortNotUp));
    }
    Ok(goes_down(alloc, state, port)?)
}

/// The flags of the port, none where it has none.
pub fn flags_of(state: &State, port: Port) -> u8
    ensures value { result ≡ flags_of (table_of state.now) port }
    ensures below { result < 64 }
{
    match state.ports.flags(port) {
        Some(flags) => flags.bits(),
        None => 0,
    }
}

/// The flags with this one or without it.
fn flags_with(on: bool, flags: u8, flag: Flags) -> Flags
    requires { flags < 64 }
    ensures { result ≡ flags_with on flags flag }
{
    let bits = if on {
        flags | flag.bits()
    } else {
        flags & (ALL_FLAGS - flag.bits())
    };
    match Flags::new(bits) {
        Some(flags) => flags,
        None => unreachable!(),
    }
}

/// The change by which the port has the flag from now on, or has it no more, if it is otherwise so far.
pub fn link_change(
    state: &State,
    port: Port,
    flag: Flags,
    on: bool,
) -> Result<Option<Change>, EventFault>
    ensures { AnswersOne result (link (table_of state.now) port flag on) }
{
    if is_down(state, port) {
        return Err(EventFault::Refused(Refusal::PortNotUp));
    }
    let old = flags_of(state, port);
    let new = flags_with(on, old, flag);
    if old == new.bits() {
        return Ok(None);
    }
    Ok(Some(Change::SetFlags(port, new)))
}

/// The port has the flag from now on, or has it no more.
pub fn link(
    alloc: Global,
    state: &State,
    port: Port,
    flag: Flags,
    on: bool,
) -> Result<Vec<Change>, EventFault>
    ensures { Answers result (link (table_of state.now) port flag on) }
{
    match link_change(state, port, flag, on)? {
        Some(change) => Ok(Vec::from_slice(alloc, &[change])?),
        None => Ok(Vec::new(alloc)),
    }
}

const ALL_FLAGS: u8 = 63;
