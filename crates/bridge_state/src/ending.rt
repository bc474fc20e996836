//! What snooping learned ends: memberships, router ports, queriers.
ghost use Rattle.std.specs.Prelude.{◌≡◌, ◌≤◌, ◌++◌, map, OnOk};
ghost use Rattle.std.specs.List.{All};
ghost use Rattle.br_model.specs.Control.Ends.{endings};
ghost use Rattle.br_model.specs.Table.Domains.{last_port};
ghost use Rattle.bridge_state.specs.Ending.{part, router_off, queriers_off};

use br_model::NoMemory;
use br_model::change::Change;
use br_model::group::Group;
use br_model::numbers::{Port, Vid};
use mdb_snoop::Mdb;
use port_sets::Ports;
use std::alloc::Global;

/// Adds what ends at `now` or before. Where nothing can, no end is looked at.
pub fn add_endings(
    alloc: Global,
    groups: &Mdb,
    now: u64,
    changes: &mut Vec<Change>,
) -> Result<(), NoMemory>
    ensures { OnOk result (changes.new.items ≡ changes.old.items ++ endings now groups.now) }
{
    if !groups.may_end(now) {
        return Ok(());
    }
    let ended = groups.expire(alloc, now)?;
    add_parts(changes, ended.groups.as_slice())?;
    add_routers(changes, ended.routers)?;
    add_queriers(changes, ended.four, ended.six)?;
    Ok(())
}

fn add_parts(changes: &mut Vec<Change>, members: &[(Vid, Group, Port)]) -> Result<(), NoMemory>
    ensures { OnOk result (changes.new.items ≡ changes.old.items ++ map part members.now) }
{
    for &(vid, group, port) in members {
        changes.push(Change::GroupPart { port, vid, group })?;
    }
    Ok(())
}

fn add_routers(changes: &mut Vec<Change>, routers: Ports) -> Result<(), NoMemory>
    requires { All (λ n. n ≤ last_port) routers }
    ensures { OnOk result (changes.new.items ≡ changes.old.items ++ map router_off routers) }
{
    for number in routers.iter() {
        let Some(port) = Port::new(number) else {
            unreachable!();
        };
        changes.push(Change::Router { port, on: false })?;
    }
    Ok(())
}

/// Of IP versions 4 and 6.
fn add_queriers(changes: &mut Vec<Change>, four: bool, six: bool) -> Result<(), NoMemory>
    ensures { OnOk result (changes.new.items ≡ changes.old.items ++ queriers_off four six) }
{
    if four {
        changes.push(Change::Querier {
            six: false,
            on: false,
        })?;
    }
    if six {
        changes.push(Change::Querier {
            six: true,
            on: false,
        })?;
    }
    Ok(())
}
