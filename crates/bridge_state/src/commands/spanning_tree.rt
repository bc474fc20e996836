//! `stp`, and the cost and priority of a port.
ghost use Rattle.br_model.specs.Control.Commands.SpanningTree.{stp, rank};
ghost use Rattle.bridge_state.specs.Answers.{Answers};
ghost use Rattle.bridge_state.specs.Standing.{table_of};

use crate::commands::ports::is_down;
use crate::faults::EventFault;
use crate::state::State;
use br_model::change::Change;
use br_model::numbers::Port;
use br_model::steps::Refusal;
use std::alloc::Global;

/// The spanning tree is switched on or off.
pub fn stp(alloc: Global, state: &State, on: bool) -> Result<Vec<Change>, EventFault>
    ensures { Answers result (stp (table_of state.now) on) }
{
    if on == state.ports.stp() {
        return Ok(Vec::new(alloc));
    }
    Ok(Vec::from_slice(alloc, &[Change::Stp(on)])?)
}

/// What the spanning tree alone keeps of a port is set.
pub fn rank(alloc: Global, state: &State, port: Port) -> Result<Vec<Change>, EventFault>
    ensures { Answers result (rank (table_of state.now) port) }
{
    if is_down(state, port) {
        return Err(EventFault::Refused(Refusal::PortNotUp));
    }
    Ok(Vec::new(alloc))
}
