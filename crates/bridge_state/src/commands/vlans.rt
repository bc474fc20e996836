//! `vlan add`, `vlan del`.
ghost use Rattle.std.specs.Prelude.{◌≡◌, IfOk};
ghost use Rattle.br_model.specs.Control.Commands.Vlans.{vlan_add, vlan_del, leaves_vlan};
ghost use Rattle.bridge_state.specs.Answers.{Answers};
ghost use Rattle.bridge_state.specs.Standing.{table_of};

use crate::commands::drops::{drop_addresses, drop_groups};
use crate::commands::ports::is_down;
use crate::faults::EventFault;
use crate::state::State;
use br_model::NoMemory;
use br_model::change::Change;
use br_model::numbers::{Port, Vid};
use br_model::steps::Refusal;
use std::alloc::Global;

/// The port becomes a member of the VLAN.
pub fn vlan_add(
    alloc: Global,
    state: &State,
    port: Port,
    vid: Vid,
    untagged: bool,
    pvid: bool,
) -> Result<Vec<Change>, EventFault>
    ensures { Answers result (vlan_add (table_of state.now) port vid untagged pvid) }
{
    if is_down(state, port) {
        return Err(EventFault::Refused(Refusal::PortNotUp));
    }
    if state.ports.member(port, vid) {
        return Err(EventFault::Refused(Refusal::Exists));
    }
    let add = Change::VlanAdd {
        port,
        vid,
        untagged,
        pvid,
    };
    Ok(Vec::from_slice(alloc, &[add])?)
}

/// What the port has in the VLAN, and then its membership.
fn leaves_vlan(alloc: Global, state: &State, port: Port, vid: Vid) -> Result<Vec<Change>, NoMemory>
    ensures { IfOk result (λ changes. changes.items ≡ leaves_vlan (table_of state.now) port vid) }
{
    let mut changes = Vec::new(alloc);
    drop_addresses(alloc, &mut changes, state, Some(vid), port)?;
    drop_groups(alloc, &mut changes, state, Some(vid), port)?;
    changes.push(Change::VlanDel { port, vid })?;
    Ok(changes)
}

/// The port is a member of the VLAN no more.
pub fn vlan_del(
    alloc: Global,
    state: &State,
    port: Port,
    vid: Vid,
) -> Result<Vec<Change>, EventFault>
    ensures { Answers result (vlan_del (table_of state.now) port vid) }
{
    if is_down(state, port) {
        return Err(EventFault::Refused(Refusal::PortNotUp));
    }
    if !state.ports.member(port, vid) {
        return Err(EventFault::Refused(Refusal::Absent));
    }
    Ok(leaves_vlan(alloc, state, port, vid)?)
}
