//! The VLANs of each port.
ghost use Rattle.std.specs.Prelude.{◌≡◌, ◌<◌, ◌≤◌, ◌↔◌, ◌++◌, ◌&&◌, ℕ, false, IfOk, OnOk, [], replicate, slice_index_or, slice_set, vec_capacity};
ghost use Rattle.lists.specs.Padded.{padded};
ghost use Rattle.port_sets.specs.Numbers.{has_number, numbers_below, IsSetBelow};
ghost use Rattle.vlan_groups.specs.Joined.{block_at, block_count, block_switched, has_vlan, is_vlan, vids_in, Switches};

use crate::NoMemory;
use br_model::numbers::{Port, Vid};
use lists::padded::{item_or, put_item};
use port_sets::PortSet;
use std::alloc::Global;
use std::marker::Model;

/// A set of numbers below 64: VLANs by their places in a block of 64, or the blocks of a port.
pub type VlanBlock = PortSet<1>;

/// How many blocks there are, 64 a port.
const BLOCKS: usize = 64 * Port::PLACES;

/// The VLANs of each port in blocks: block i of a port has the number n for VLAN 64 i + n.
#[derive(Drop)]
pub struct Joined {
    // Those behind were never written to, and are empty.
    blocks: Vec<VlanBlock>,
    // Of each port the numbers of its blocks that aren't empty.
    used: Vec<VlanBlock>,
}

impl Model for Joined {
    ghost use Rattle.std.specs.Prelude.{◌≤◌, List, [], ℕ, vec_capacity};
    ghost use Rattle.lists.specs.Padded.{padded};
    ghost use Rattle.vlan_groups.specs.Joined.{block_count};
    ghost use Rattle.vlan_groups.specs.UsedSets.{AreUsed};

    ghost Value = { List (List ℕ) };

    ghost view = { λ j. padded [] block_count j.blocks.items };

    ghost invariant = { λ j. AreUsed (padded [] block_count j.blocks.items) j.used.items × (block_count ≤ vec_capacity j.blocks) };
}

impl Joined {
    /// No port is in a VLAN.
    pub fn make(alloc: Global) -> Result<Joined, NoMemory>
        ensures { IfOk result (λ j. j ≡ replicate block_count []) }
    {
        let blocks = Vec::with_capacity(alloc, BLOCKS)?;
        let used = no_sets(alloc, Port::PLACES)?;
        Ok(Joined { blocks, used })
    }

    /// Block i of the port.
    pub fn block(&self, port: Port, i: u8) -> VlanBlock
        requires { i < 64 }
        ensures { result ≡ block_at self.now port i }
    {
        block_in(
            self.blocks.as_slice(),
            64 * usize::from(port.number()) + usize::from(i),
        )
    }

    /// The numbers of the port's blocks that aren't empty.
    pub fn used(&self, port: Port) -> VlanBlock
        ensures { (i : ℕ) → i < 64 → (has_number result i ≡ false) ↔ (block_at self.now port i ≡ []) }
    {
        self.used[usize::from(port.number())]
    }

    /// Whether the port is in the VLAN.
    pub fn has(&self, port: Port, v: Vid) -> bool
        ensures { result ≡ has_vlan self.now port v }
    {
        let vid = v.number();
        self.block(port, (vid / 64) as u8).has((vid % 64) as u8)
    }

    /// Puts the port into the VLAN or out of it.
    #[inline(always)]
    pub fn switch(&mut self, p: Port, v: Vid, on: bool)
        ensures vlan { Switches self.old self.new p v on }
        ensures below { v < 4096 }
    {
        let vid = v.number();
        let port = usize::from(p.number());
        let place = 64 * port + usize::from(vid / 64);
        let block = switched(
            block_in(self.blocks.as_slice(), place),
            (vid % 64) as u8,
            on,
        );
        put_block(&mut self.blocks, place, block);
        self.used[port] = switched(self.used[port], (vid / 64) as u8, !block.is_empty());
    }

    /// The VLANs of which the port is a member, ascending. It looks at no other.
    pub fn vids_of(&self, alloc: Global, port: Port) -> Result<Vec<Vid>, NoMemory>
        ensures { IfOk result (λ vids. vids.items ≡ numbers_below 4096 (λ v. is_vlan v && has_vlan self.now port v)) }
    {
        let mut vids = Vec::new(alloc);
        for i in self.used(port).iter() {
            push_block(&mut vids, self.block(port, i), i)?;
        }
        Ok(vids)
    }
}

/// The block at a place.
#[inline(always)]
fn block_in(blocks: &[VlanBlock], place: usize) -> VlanBlock
    requires { place < block_count }
    ensures { result ≡ slice_index_or (padded [] block_count blocks.now) place [] }
{
    item_or(blocks, place, VlanBlock::empty())
}

/// Writes the block at a place, within the room that is there.
#[inline(always)]
fn put_block(blocks: &mut Vec<VlanBlock>, place: usize, block: VlanBlock)
    requires within { place < block_count }
    requires room { block_count ≤ vec_capacity blocks.old }
    ensures blocks { padded [] block_count blocks.new.items ≡ slice_set (padded [] block_count blocks.old.items) place block }
    ensures room { block_count ≤ vec_capacity blocks.new }
{
    put_item(blocks, place, block, VlanBlock::empty());
}

/// So many empty sets.
fn no_sets(alloc: Global, count: usize) -> Result<Vec<VlanBlock>, NoMemory>
    ensures { IfOk result (λ v. v.items ≡ replicate count []) }
{
    let none = VlanBlock::empty();
    vec![in alloc; none; count]
}

/// The set with the number or without it.
fn switched(set: VlanBlock, n: u8, on: bool) -> VlanBlock
    requires { n < 64 }
    ensures { result ≡ block_switched set n on }
{
    if on { set.with(n) } else { set.without(n) }
}

/// Adds the VLANs of block i of a port.
fn push_block(vids: &mut Vec<Vid>, block: VlanBlock, i: u8) -> Result<(), NoMemory>
    requires { i < 64 }
    ensures added { OnOk result (vids.new.items ≡ vids.old.items ++ vids_in i block) }
    ensures ordered { IsSetBelow 64 block }
{
    for n in block.iter() {
        if let Some(vid) = Vid::new(64 * u16::from(i) + u16::from(n)) {
            vids.push(vid)?;
        }
    }
    Ok(())
}
