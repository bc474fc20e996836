//! The table that messages give.
ghost use Rattle.std.specs.Prelude.{◌≡◌, [], None, Some, IfOk, IfErr, OnOk, OnErr};
ghost use Rattle.neigh_netlink.specs.Neighbours.{after_message, fault_of, is_of, row, rows};

use crate::NoMemory;
use crate::entries::{Entry, Key, find_in, put_in, take_from};
use crate::neigh::Neigh;
use br_model::change::Kind;
use br_model::limits::MOST_ADDRESSES;
use br_model::numbers::{Mac, Port, Vid};
use lists::Items;
use std::alloc::Global;
use std::marker::Model;

/// Entries ascending by VLAN and address: VLAN, address, port, kind, and whether a chip has it.
pub type Listing = Items<(Vid, Mac, Port, Kind, bool)>;

/// Why a message isn't taken.
#[derive(Clone, Copy, PartialEq, Eq, Debug)]
pub enum TakeFault {
    /// The entry that goes isn't there with that port and kind.
    Absent,
    /// There is no room for one more entry.
    Full,
}

/// The entries by VLAN and address. Contracts see the list of them, ascending.
#[derive(Drop)]
pub struct Table {
    // It has its room from the beginning.
    entries: Vec<(Key, Entry)>,
}

impl Model for Table {
    ghost use Rattle.std.specs.Prelude.{◌≤◌, IsTrue, vec_capacity};
    ghost use Rattle.br_model.specs.Data.Maps.{pair_cmp, is_ascending};
    ghost use Rattle.br_model.specs.Table.Limits.{most_addresses};
    ghost use Rattle.neigh_netlink.specs.Neighbours.{Neighbours};

    ghost Value = { Neighbours };

    ghost view = { λ t. t.entries.items };

    ghost invariant = { λ t. (most_addresses ≤ vec_capacity t.entries) × IsTrue (is_ascending pair_cmp t.entries.items) };
}

// Whether the entry that stands there has this port and kind.
fn is_of(port: Port, kind: Kind, there: Option<Entry>) -> bool
    ensures { result ≡ is_of port kind there }
{
    match there {
        Some(entry) => entry.port == port && entry.kind == kind,
        None => false,
    }
}

fn row(pair: &(Key, Entry)) -> (Vid, Mac, Port, Kind, bool)
    ensures { result ≡ row pair.now }
{
    let ((vid, mac), entry) = *pair;
    (vid, mac, entry.port, entry.kind, entry.offload)
}

fn rows(
    alloc: Global,
    entries: &[(Key, Entry)],
) -> Result<Vec<(Vid, Mac, Port, Kind, bool)>, NoMemory>
    ensures { IfOk result (λ v. v.items ≡ rows entries.now) }
{
    entries.iter().map(|e| row(e)).collect(alloc)
}

impl Table {
    /// No entry. It takes the memory for all that may come.
    pub fn make(alloc: Global) -> Result<Table, NoMemory>
        ensures { IfOk result (λ t. t ≡ []) }
    {
        let entries = Vec::with_capacity(alloc, MOST_ADDRESSES)?;
        Ok(Table { entries })
    }

    /// Does what the message says. After a fault the table is as before. Allocates nothing.
    pub fn take(&mut self, neigh: &Neigh) -> Result<(), TakeFault>
        ensures ok { OnOk result ((fault_of self.old neigh.now ≡ None) × (self.new ≡ after_message self.old neigh.now)) }
        ensures err { OnErr result (self.new ≡ self.old) }
        ensures fault { IfErr result (λ why. fault_of self.old neigh.now ≡ Some why) }
    {
        let key = (neigh.vid, neigh.mac);
        let there = find_in(&self.entries, &key);
        if neigh.new {
            if there.is_none() && self.entries.len() >= MOST_ADDRESSES {
                return Err(TakeFault::Full);
            }
            put_in(&mut self.entries, key, Entry::of(neigh));
        } else {
            if !is_of(neigh.port, neigh.kind, there) {
                return Err(TakeFault::Absent);
            }
            take_from(&mut self.entries, &key);
        }
        Ok(())
    }

    /// The entries, ascending by VLAN and address.
    pub fn list(&self, alloc: Global) -> Result<Listing, NoMemory>
        ensures { IfOk result (λ l. l ≡ rows self.now) }
    {
        let listed = rows(alloc, &self.entries)?;
        Ok(Listing::of(listed))
    }
}
