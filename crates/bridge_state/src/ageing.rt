//! Which addresses are forgotten.
ghost use Rattle.std.specs.Prelude.{◌≡◌, ◌==◌, ◌<◌, ◌^◌, IfOk, Ok, Some};
ghost use Rattle.br_model.specs.declared.tree.TreeEvent.TheVariants.{Moment};
ghost use Rattle.br_model.specs.Control.Ageing.{expired, forgets, forgotten};
ghost use Rattle.br_model.specs.Control.Course.{Course, from, makes_all};
ghost use Rattle.br_model.specs.Control.Learning.{is_extern_at};
ghost use Rattle.br_model.specs.Control.Reaction.{passes_to};
ghost use Rattle.br_model.specs.Control.TreeReaction.{tells_tree};
ghost use Rattle.bridge_state.specs.Plans.{Plans};
ghost use Rattle.bridge_state.specs.Standing.{table_of, control_of};

use crate::ending::add_endings;
use crate::faults::EventFault;
use crate::plan::Plan;
use crate::state::{Clock, State};
use br_model::NoMemory;
use br_model::change::{Change, Kind};
use br_model::numbers::{Mac, Port, Vid};
use br_model::steps::{Refusal, Triples};
use br_model::tree::TreeEvent;
use fdb_core::Key;
use std::alloc::Global;
use stp_core::Tree;

/// What the moment comes to: what is old by then is forgotten, what ends by then ends, and then the spanning tree does what is
/// due.
pub fn passes_to(alloc: Global, state: &State, now: u64) -> Result<Plan, EventFault>
    requires { now < 2 ^ 53 }
    ensures { Plans (table_of state.now) (control_of state.now) result (passes_to now (from (table_of state.now) (control_of state.now))) }
{
    if now < state.clock.now {
        return Err(EventFault::Refused(Refusal::Backward));
    }
    let mut changes = forgets_old(alloc, state, now)?;
    add_endings(alloc, &state.groups, now, &mut changes)?;
    Ok(Plan {
        clock: Clock {
            now,
            ageing: state.clock.ageing,
        },
        renewed: None,
        changes,
        tree_event: due(&state.tree, now),
    })
}

/// The moment, where the spanning tree is to be told of it: where something is due there.
fn due(tree: &Tree, now: u64) -> Option<TreeEvent>
    ensures { (r : Course) → r.control.tree ≡ tree.now → r.control.now ≡ now → tells_tree result r ≡ tells_tree (Some Moment) r }
{
    if tree.is_idle(now) {
        return None;
    }
    Some(TreeEvent::Moment)
}

/// What is old by the moment is forgotten. Where nothing can be, no entry is looked at.
fn forgets_old(alloc: Global, state: &State, now: u64) -> Result<Vec<Change>, NoMemory>
    ensures { IfOk result (λ changes. changes.items ≡ forgets (expired (table_of state.now) (record (control_of state.now) { now = now }))) }
{
    let stay = state.stay();
    if !state.addresses.may_expire(now, stay) {
        return Ok(Vec::new(alloc));
    }
    let keys = state.addresses.expired(alloc, now, stay)?;
    forgets(alloc, keys.as_slice())
}

/// Each of the addresses is forgotten.
fn forgets(alloc: Global, keys: &[Key]) -> Result<Vec<Change>, NoMemory>
    ensures { IfOk result (λ changes. changes.items ≡ forgets keys.now) }
{
    let mut changes = Vec::with_capacity(alloc, keys.len())?;
    for &(vid, mac) in keys {
        changes.push(Change::AddrDel { vid, mac })?;
    }
    Ok(changes)
}

/// Whether the address has an entry of this port by a chip's report.
fn is_reported(state: &State, vid: Vid, mac: Mac, port: Port) -> bool
    ensures { result ≡ is_extern_at (table_of state.now) (vid, mac) port }
{
    match state.addresses.find(vid, mac) {
        Some((other, Kind::Extern)) => other == port,
        Some((_, Kind::Local | Kind::Static | Kind::Learned)) | None => false,
    }
}

/// Each of the stations is forgotten that is there by a chip's report, at that port.
fn forgets_reported(
    alloc: Global,
    state: &State,
    stations: &[(Vid, Mac, Port)],
) -> Result<Vec<Change>, NoMemory>
    ensures { IfOk result (λ changes. changes.items ≡ forgets (forgotten (table_of state.now) stations.now)) }
{
    let mut changes = Vec::new(alloc);
    for &(vid, mac, port) in stations {
        if is_reported(state, vid, mac, port) {
            changes.push(Change::AddrDel { vid, mac })?;
        }
    }
    Ok(changes)
}

/// What it comes to that a chip no longer sees these stations.
pub fn loses(alloc: Global, state: &State, stations: &Triples) -> Result<Plan, EventFault>
    requires { state.now.clock.now < 2 ^ 53 }
    ensures { Plans (table_of state.now) (control_of state.now) result (Ok (makes_all (from (table_of state.now) (control_of state.now))
        (forgets (forgotten (table_of state.now) stations.now)))) }
{
    Ok(Plan {
        clock: state.clock,
        renewed: None,
        changes: forgets_reported(alloc, state, stations.as_slice())?,
        tree_event: None,
    })
}
