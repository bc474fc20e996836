//! The table of memberships and PVIDs.
ghost use Rattle.std.specs.Prelude.{◌≡◌, ◌↔◌, ◌+◌, ◌<◌, ◌≤◌, not, IfOk, IsErr, IsTrue, OnErr, OnOk, [], slice_index_or, slice_set, vec_capacity};
ghost use Rattle.std.specs.Ordering.{nat_cmp};
ghost use Rattle.br_model.specs.Table.Domains.{entries_from};
ghost use Rattle.br_model.specs.Data.Maps.{get, put};
ghost use Rattle.br_model.specs.Table.Table.{start, without_pvid};
ghost use Rattle.br_model.specs.declared.change.Change.TheVariants as Change;
ghost use Rattle.vlan_groups.specs.Vlans.{parts, after, is_member, is_untagged, vids_of};
ghost use Rattle.lists.specs.Padded.{padded};
ghost use Rattle.vlan_groups.specs.Rows.{ports_where, no_ports};

use crate::NoMemory;
use crate::joined::Joined;
use crate::row::Row;
use crate::vid_list::Vids;
use br_model::numbers::{Port, Vid};
use lists::padded::{item_or, put_item};
use port_sets::Ports;
use std::alloc::Global;
use std::marker::Model;
use thiserror::Error;

/// The port is a member of the VLAN already.
#[derive(Clone, Copy, Debug, Error)]
#[error("the port is a member of the VLAN already")]
pub struct Exists;

/// The port isn't a member of the VLAN.
#[derive(Clone, Copy, Debug, Error)]
#[error("the port isn't a member of the VLAN")]
pub struct Absent;

const VLANS: usize = 4094;

/// The members of each VLAN, and the VLAN of each port's untagged frames.
#[derive(Drop)]
pub struct VlanTable {
    // The row of VLAN v at place v - 1. Those behind were never written to, and have no member.
    rows: Vec<Row>,
    joined: Joined,
    pvids: [Option<Vid>; Port::PLACES],
}

impl Model for VlanTable {
    ghost use Rattle.std.specs.Prelude.{◌≤◌, vec_capacity};
    ghost use Rattle.br_model.specs.Table.Domains.{entries_from};
    ghost use Rattle.lists.specs.Padded.{padded};
    ghost use Rattle.vlan_groups.specs.Vlans.{Vlans};
    ghost use Rattle.vlan_groups.specs.Rows.{memberships_from, no_ports};
    ghost use Rattle.vlan_groups.specs.Tied.{AreTied};

    ghost Value = { Vlans };

    ghost view = { λ t. record { vlans = memberships_from 1 (padded no_ports 4094 t.rows.items); pvid = entries_from 0 t.pvids } };

    ghost invariant = { λ t. AreTied (padded no_ports 4094 t.rows.items) t.joined × (4094 ≤ vec_capacity t.rows) };
}

impl VlanTable {
    /// As a bridge has them at its making: the host is an untagged member of VLAN 1, and no port has a PVID.
    pub fn make(alloc: Global) -> Result<VlanTable, NoMemory>
        ensures { IfOk result (λ t. t ≡ parts start) }
    {
        let mut rows = Vec::with_capacity(alloc, VLANS)?;
        let place = place_of(Vid::DEFAULT);
        let row = row_at(rows.as_slice(), place).with(Port::HOST, true);
        put_row(&mut rows, place, row);
        let mut joined = Joined::make(alloc)?;
        joined.switch(Port::HOST, Vid::DEFAULT, true);
        Ok(VlanTable {
            rows,
            joined,
            pvids: no_pvids(),
        })
    }

    /// Makes the port a member of the VLAN. With `pvid` the VLAN is that of the port's untagged frames from then on.
    pub fn add(&mut self, p: Port, v: Vid, untagged: bool, pvid: bool) -> Result<(), Exists>
        ensures ok { OnOk result (self.new ≡ after self.old (Change.VlanAdd p v untagged pvid)) }
        ensures exists { IsErr result ↔ IsTrue (is_member self.old p v) }
        ensures unchanged { OnErr result (self.new ≡ self.old) }
    {
        if self.member(p, v) {
            return Err(Exists);
        }
        self.put(p, v, untagged, pvid);
        Ok(())
    }

    /// As `add`, but in place of a membership that is there.
    pub fn put(&mut self, port: Port, vid: Vid, untagged: bool, pvid: bool)
        ensures { self.new ≡ after self.old (Change.VlanAdd port vid untagged pvid) }
    {
        let place = place_of(vid);
        let row = row_at(self.rows.as_slice(), place).with(port, untagged);
        put_row(&mut self.rows, place, row);
        self.joined.switch(port, vid, true);
        if pvid {
            set_pvid(&mut self.pvids, port, vid);
        }
    }

    /// Ends the port's membership. Where the VLAN was that of the port's untagged frames, they have none.
    pub fn del(&mut self, p: Port, v: Vid) -> Result<(), Absent>
        ensures ok { OnOk result (self.new ≡ after self.old (Change.VlanDel p v)) }
        ensures absent { IsErr result ↔ IsTrue (not (is_member self.old p v)) }
        ensures unchanged { OnErr result (self.new ≡ self.old) }
    {
        if !self.member(p, v) {
            return Err(Absent);
        }
        self.remove(p, v);
        Ok(())
    }

    /// As `del`, but also where there is no membership: the port's untagged frames have the VLAN no longer.
    pub fn remove(&mut self, port: Port, vid: Vid)
        ensures { self.new ≡ after self.old (Change.VlanDel port vid) }
    {
        let place = place_of(vid);
        let row = row_at(self.rows.as_slice(), place).without(port);
        put_row(&mut self.rows, place, row);
        self.joined.switch(port, vid, false);
        unset_pvid(&mut self.pvids, port, vid);
    }

    /// The VLAN of the port's untagged frames.
    pub fn pvid(&self, p: Port) -> Option<Vid>
        ensures { result ≡ get nat_cmp self.now.pvid p }
    {
        pvid_of(&self.pvids, p)
    }

    /// Whether the port is a member of the VLAN. It reads one block of the port, and copies no row.
    pub fn member(&self, p: Port, v: Vid) -> bool
        ensures { result ≡ is_member self.now p v }
    {
        // law: the port and the VLAN are in range
        let _numbers = (p.number(), v.number());
        self.joined.has(p, v)
    }

    /// Whether the port is a member that the VLAN's frames leave without a tag.
    pub fn untagged(&self, p: Port, v: Vid) -> bool
        ensures { result ≡ is_untagged self.now p v }
    {
        row_at(self.rows.as_slice(), place_of(v)).is_untagged(p)
    }

    /// The members of the VLAN.
    pub fn ports_of(&self, v: Vid) -> Ports
        ensures { result ≡ ports_where (λ p. is_member self.now p v) }
    {
        row_at(self.rows.as_slice(), place_of(v)).members()
    }

    /// The members that the VLAN's frames leave without a tag.
    pub fn untagged_of(&self, vid: Vid) -> Ports
        ensures { result ≡ ports_where (λ p. is_untagged self.now p vid) }
    {
        row_at(self.rows.as_slice(), place_of(vid)).untagged()
    }

    /// The VLANs of which the port is a member, ascending. It looks at no other.
    pub fn vids_of(&self, alloc: Global, port: Port) -> Result<Vids, NoMemory>
        ensures { IfOk result (λ vids. vids ≡ vids_of self.now.vlans port) }
    {
        // law: the blocks have what the rows have
        let _rows = &self.rows;
        Ok(Vids::of(self.joined.vids_of(alloc, port)?))
    }
}

/// The row at a place.
fn row_at(rows: &[Row], place: usize) -> Row
    requires { place < 4094 }
    ensures { result ≡ slice_index_or (padded no_ports 4094 rows.now) place result }
{
    item_or(rows, place, Row::empty())
}

/// Writes the row at a place, within the room that is there.
fn put_row(rows: &mut Vec<Row>, place: usize, row: Row)
    requires within { place < 4094 }
    requires room { 4094 ≤ vec_capacity rows.old }
    ensures rows { padded no_ports 4094 rows.new.items ≡ slice_set (padded no_ports 4094 rows.old.items) place row }
    ensures room { 4094 ≤ vec_capacity rows.new }
{
    put_item(rows, place, row, Row::empty());
}

fn no_pvids() -> [Option<Vid>; Port::PLACES]
    ensures { entries_from 0 result ≡ [] }
{
    [None; Port::PLACES]
}

fn pvid_of(pvids: &[Option<Vid>; Port::PLACES], p: Port) -> Option<Vid>
    ensures { result ≡ get nat_cmp (entries_from 0 pvids.now) p }
{
    pvids[usize::from(p.number())]
}

fn set_pvid(pvids: &mut [Option<Vid>; Port::PLACES], p: Port, v: Vid)
    ensures { entries_from 0 pvids.new ≡ put nat_cmp (entries_from 0 pvids.old) p v }
{
    pvids[usize::from(p.number())] = Some(v);
}

/// Leaves the port without a PVID where the VLAN was that.
fn unset_pvid(pvids: &mut [Option<Vid>; Port::PLACES], p: Port, v: Vid)
    ensures { entries_from 0 pvids.new ≡ without_pvid (entries_from 0 pvids.old) p v }
{
    if pvid_of(pvids, p) == Some(v) {
        pvids[usize::from(p.number())] = None;
    }
}

fn place_of(v: Vid) -> usize
    ensures place { result + 1 ≡ v }
    ensures within { result < 4094 }
{
    usize::from(v.number()) - 1
}
