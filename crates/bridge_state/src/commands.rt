//! What a command is answered: its first refusal that holds, or its changes in order. A file a family of commands.
ghost use Rattle.br_model.specs.Control.Commands.{command as answer, sets as what_is_set};
ghost use Rattle.br_model.specs.Control.Course.{from};
ghost use Rattle.br_model.specs.Control.Reaction.{commanded};
ghost use Rattle.bridge_state.specs.Answers.{Answers};
ghost use Rattle.bridge_state.specs.Plans.{Plans};
ghost use Rattle.bridge_state.specs.Standing.{table_of, control_of, clocked};
ghost use Rattle.std.specs.Prelude.{◌≡◌, ◌<◌, ◌^◌};

mod addresses;
mod drops;
mod groups;
mod ports;
mod spanning_tree;
mod vlans;

use crate::faults::EventFault;
use crate::plan::Plan;
use crate::spanning_tree::tells;
use crate::state::{Clock, State};
use addresses::{fdb_add, fdb_del};
use br_model::change::Change;
use br_model::steps::Command;
use groups::{mdb_add, mdb_del, snooping};
pub use ports::{flags_of, link_change};
use ports::{link, port_down, port_up};
use spanning_tree::{rank, stp};
use std::alloc::Global;
use vlans::{vlan_add, vlan_del};

/// What the command comes to.
pub fn obey(alloc: Global, state: &State, asked: &Command) -> Result<Plan, EventFault>
    requires { state.now.clock.now < 2 ^ 53 }
    ensures { Plans (table_of state.now) (control_of state.now) result
        (commanded (from (table_of state.now) (control_of state.now)) asked.now (answer (table_of state.now) asked.now)) }
{
    Ok(Plan {
        clock: sets(state, asked),
        renewed: None,
        changes: command(alloc, state, asked)?,
        tree_event: tells(state, asked),
    })
}

fn command(alloc: Global, state: &State, command: &Command) -> Result<Vec<Change>, EventFault>
    ensures { Answers result (answer (table_of state.now) command.now) }
{
    match *command {
        Command::PortUp(port) => port_up(alloc, state, port),
        Command::PortDown(port) => port_down(alloc, state, port),
        Command::Link { port, flag, on } => link(alloc, state, port, flag, on),
        Command::VlanAdd {
            port,
            vid,
            untagged,
            pvid,
        } => vlan_add(alloc, state, port, vid, untagged, pvid),
        Command::VlanDel { port, vid } => vlan_del(alloc, state, port, vid),
        Command::FdbAdd {
            vid,
            mac,
            port,
            kind,
        } => fdb_add(alloc, state, vid, mac, port, kind),
        Command::FdbDel { vid, mac } => fdb_del(alloc, state, vid, mac),
        Command::MdbAdd { port, vid, group } => mdb_add(alloc, state, port, vid, group),
        Command::MdbDel { port, vid, group } => mdb_del(alloc, state, port, vid, group),
        Command::Cost { port, .. } | Command::PortPriority { port, .. } => rank(alloc, state, port),
        Command::Stp(on) => stp(alloc, state, on),
        Command::Priority(_) | Command::Ageing(_) => Ok(Vec::new(alloc)),
        Command::Snooping(on) => snooping(alloc, state, on),
    }
}

/// The clock once the command is accepted.
fn sets(state: &State, command: &Command) -> Clock
    ensures { clocked result (control_of state.now) ≡ what_is_set (control_of state.now) command.now }
{
    match *command {
        Command::Ageing(seconds) => Clock {
            now: state.clock.now,
            ageing: 1000 * u64::from(seconds),
        },
        _ => state.clock,
    }
}
