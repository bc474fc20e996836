//! `fdb add`, `fdb del`.
ghost use Rattle.br_model.specs.Control.Commands.Addresses.{fdb_add, fdb_del};
ghost use Rattle.bridge_state.specs.Answers.{Answers};
ghost use Rattle.bridge_state.specs.Standing.{table_of};

use crate::commands::ports::is_down;
use crate::faults::EventFault;
use crate::state::State;
use br_model::change::{Change, Kind};
use br_model::numbers::{Mac, Port, Vid};
use br_model::steps::Refusal;
use std::alloc::Global;

/// An entry of the address in the VLAN, at a port that is a member of it.
pub fn fdb_add(
    alloc: Global,
    state: &State,
    vid: Vid,
    mac: Mac,
    port: Port,
    kind: Kind,
) -> Result<Vec<Change>, EventFault>
    ensures { Answers result (fdb_add (table_of state.now) vid mac port kind) }
{
    if is_down(state, port) {
        return Err(EventFault::Refused(Refusal::PortNotUp));
    }
    if !state.ports.member(port, vid) {
        return Err(EventFault::Refused(Refusal::NotMember));
    }
    if state.addresses.find(vid, mac).is_some() {
        return Err(EventFault::Refused(Refusal::Exists));
    }
    if state.addresses.is_full() {
        return Err(EventFault::Refused(Refusal::FdbFull));
    }
    let put = Change::AddrPut {
        vid,
        mac,
        port,
        kind,
    };
    Ok(Vec::from_slice(alloc, &[put])?)
}

/// The entry goes, of whatever kind it is.
pub fn fdb_del(alloc: Global, state: &State, vid: Vid, mac: Mac) -> Result<Vec<Change>, EventFault>
    ensures { Answers result (fdb_del (table_of state.now) vid mac) }
{
    if state.addresses.find(vid, mac).is_none() {
        return Err(EventFault::Refused(Refusal::Absent));
    }
    Ok(Vec::from_slice(alloc, &[Change::AddrDel { vid, mac }])?)
}
