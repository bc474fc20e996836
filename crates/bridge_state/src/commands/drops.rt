//! What goes with a port, or with its membership of a VLAN.
ghost use Rattle.std.specs.Prelude.{◌≡◌, ◌++◌, OnOk};
ghost use Rattle.br_model.specs.Control.Commands.Ports.{drops_addresses, drops_groups, drops_vlans, drops_router};
ghost use Rattle.bridge_state.specs.Dropping.{is_meant};
ghost use Rattle.bridge_state.specs.Standing.{table_of};

use crate::state::State;
use br_model::NoMemory;
use br_model::change::Change;
use br_model::numbers::{Port, Vid};
use std::alloc::Global;

/// Whether the VLAN is the one that is meant; none stands for all.
fn is_meant(vlan: &Option<Vid>, vid: Vid) -> bool
    ensures { result ≡ is_meant vlan.now vid }
{
    match vlan {
        None => true,
        Some(only) => vid == *only,
    }
}

/// Adds the deletions of the port's addresses in the VLAN.
pub fn drop_addresses(
    alloc: Global,
    changes: &mut Vec<Change>,
    state: &State,
    vlan: Option<Vid>,
    port: Port,
) -> Result<(), NoMemory>
    ensures { OnOk result (changes.new.items ≡ changes.old.items ++ drops_addresses (table_of state.now) (is_meant vlan) port) }
{
    let keys = state.addresses.of_port(alloc, port)?;
    let keys = keys.as_slice();
    for &(vid, mac) in keys {
        if is_meant(&vlan, vid) {
            changes.push(Change::AddrDel { vid, mac })?;
        }
    }
    Ok(())
}

/// Adds the end of the port's memberships of groups in the VLAN.
pub fn drop_groups(
    alloc: Global,
    changes: &mut Vec<Change>,
    state: &State,
    vlan: Option<Vid>,
    port: Port,
) -> Result<(), NoMemory>
    ensures { OnOk result (changes.new.items ≡ changes.old.items ++ drops_groups (table_of state.now) (is_meant vlan) port) }
{
    let pairs = state.ports.groups_of(alloc, port)?;
    let pairs = pairs.as_slice();
    for &(vid, group) in pairs {
        if is_meant(&vlan, vid) {
            changes.push(Change::GroupPart { port, vid, group })?;
        }
    }
    Ok(())
}

/// Adds the end of the port's memberships of VLANs.
pub fn drop_vlans(
    alloc: Global,
    changes: &mut Vec<Change>,
    state: &State,
    port: Port,
) -> Result<(), NoMemory>
    ensures { OnOk result (changes.new.items ≡ changes.old.items ++ drops_vlans (table_of state.now) port) }
{
    let vids = state.ports.vids_of(alloc, port)?;
    let vids = vids.as_slice();
    for vid in vids {
        changes.push(Change::VlanDel { port, vid: *vid })?;
    }
    Ok(())
}

/// Adds that no router is behind the port, where one was.
pub fn drop_router(changes: &mut Vec<Change>, state: &State, port: Port) -> Result<(), NoMemory>
    ensures { OnOk result (changes.new.items ≡ changes.old.items ++ drops_router (table_of state.now) port) }
{
    if state.ports.is_router(port) {
        changes.push(Change::Router { port, on: false })?;
    }
    Ok(())
}
