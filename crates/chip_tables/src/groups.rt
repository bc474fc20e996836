//! The group rows as the cells of a map.
ghost use Rattle.std.specs.Prelude.{◌≡◌, ◌≢◌, ◌<◌, ◌*◌, ◌+◌, ◌^◌, IfOk, None, [], length, replicate};
ghost use Rattle.chip_tables.specs.GroupCells.{version_bit, address_bits, head_of, number_of, head_in, bits_in, group_key_of, group_cells, folded, group_hash};
ghost use Rattle.br_model.specs.Table.GroupPairs.{max_pairs};
ghost use Rattle.chip_tables.specs.GroupHash.{group_hash-lt};
ghost use Rattle.open_addressing.specs.Hashed.{mix};

use crate::NoMemory;
use crate::rows::{FanRow, fan_row, pack_fan};
use br_model::group::Group;
use br_model::limits::MOST_PAIRS;
use br_model::numbers::Vid;
use chip_regs::{Bank, Field, Row};
use open_addressing::map::Map;
use open_addressing::{Cells, mixed};
use std::alloc::Global;

/// A group in a VLAN.
pub type GroupKey = (Vid, Group);

/// The used group rows by their keys.
pub type Groups = Map<GroupKey, FanRow, GroupCells>;

/// How many group rows there are, and all may be used.
const ROWS: usize = 1024;

/// The fields of a key row.
const VID: Field = Field { at: 0, width: 12 };

const SIX: Field = Field { at: 12, width: 1 };

const USED: Field = Field { at: 13, width: 1 };

const HIGH: Field = Field { at: 14, width: 64 };

const LOW: Field = Field { at: 78, width: 64 };

/// Two to this power is the number of low halves.
const HALF: u32 = 64;

/// A row is used where its key isn't all 0.
#[derive(Drop)]
pub struct GroupCells {
    keys: Bank<1024, 18>,
    rows: Bank<1024, 33>,
    ghost sized_keys: { length keys ≡ 1024 },
    ghost sized_rows: { length rows ≡ 1024 },
}

/// The key of a VLAN and a group.
pub fn group_key(vid: Vid, group: Group) -> GroupKey
    ensures value { result ≡ (vid, group) }
    ensures some { number_of (vid, group) ≢ 0 }
    ensures below { address_bits group < 2 ^ 128 }
{
    // law: no key's head is 0
    let _ = head(&(vid, group));
    (vid, group)
}

/// The VLAN, and the version in the lowest bit.
fn head(key: &GroupKey) -> u64
    ensures value { result ≡ head_of key.now }
    ensures some { 0 < result }
    ensures below { address_bits key.now.1 < 2 ^ 128 }
{
    // law: an address is below 2^128
    let _ = address(key.1);
    2 * u64::from(key.0.number()) + version(key.1)
}

/// The bit of a version.
fn version(g: Group) -> u64
    ensures value { result ≡ version_bit g }
    ensures small { result < 2 }
{
    match g {
        Group::V4(_) => 0,
        Group::V6(_) => 1,
    }
}

/// The bits of an address.
fn address(g: Group) -> u128
    ensures value { result ≡ address_bits g }
    ensures below { address_bits g < 2 ^ 128 }
{
    match g {
        Group::V4(n) => u128::from(n),
        Group::V6(n) => n,
    }
}

/// The VLAN and the version of a key row.
fn head_at(row: &Row<18>) -> u64
    ensures { result ≡ head_in row.now }
{
    2 * row.get(VID) + row.get(SIX)
}

/// The address of a key row.
fn address_at(row: &Row<18>) -> u128
    ensures value { result ≡ bits_in row.now }
    ensures below { bits_in row.now < 2 ^ 128 }
{
    (u128::from(row.get(HIGH)) << HALF) + u128::from(row.get(LOW))
}

/// A hash of a key.
fn hashed(head: u64, bits: u128) -> u64
    ensures { result ≡ mix (folded head bits) }
{
    let (high, low) = halves(bits);
    mixed(low ^ high ^ head.wrapping_mul(0x9e37_79b9_7f4a_7c15))
}

/// The high and the low half of an address.
fn halves(bits: u128) -> (u64, u64)
    ensures value { bits ≡ result.0 * 2 ^ 64 + result.1 }
    ensures high { result.0 < 2 ^ 64 }
    ensures low { result.1 < 2 ^ 64 }
{
    ((bits / (1 << HALF)) as u64, (bits % (1 << HALF)) as u64)
}

fn pack_group_key(key: &GroupKey) -> Row<18>
    ensures { group_key_of result ≡ number_of key.now }
{
    let (high, low) = halves(address(key.1));
    let mut row = Row::zero();
    row.set(VID, u64::from(key.0.number()));
    row.set(SIX, version(key.1));
    row.set(USED, 1);
    row.set(HIGH, high);
    row.set(LOW, low);
    row
}

impl Cells<GroupKey, FanRow> for GroupCells {
    ghost number = { number_of };

    ghost hash = { group_hash };

    ghost cells = { λ s. group_cells s.keys s.rows };

    fn holds(&self, i: usize, key: &GroupKey) -> bool {
        let row = self.keys.at(i);
        head_at(row) == head(key) && address_at(row) == address(key.1)
    }

    fn is_below(&self, i: usize, key: &GroupKey) -> bool {
        let row = self.keys.at(i);
        if head_at(row) == head(key) {
            return address_at(row) < address(key.1);
        }
        head_at(row) < head(key)
    }

    fn hash(key: &GroupKey) -> u64 {
        hashed(head(key), address(key.1))
    }

    fn value(&self, i: usize) -> FanRow {
        fan_row(self.rows.at(i))
    }

    fn put(&mut self, i: usize, key: &GroupKey, value: FanRow) {
        self.keys.put(i, pack_group_key(key));
        self.rows.put(i, pack_fan(&value));
    }

    fn clear(&mut self, i: usize) {
        self.keys.put(i, Row::zero());
    }

    ghost hashes = { group_hash-lt };
}

impl GroupCells {
    /// No row is used.
    fn make(alloc: Global) -> Result<GroupCells, NoMemory>
        ensures { IfOk result (λ s. group_cells s.keys s.rows ≡ replicate 1024 None) }
    {
        let keys = Bank::make(alloc)?;
        let rows = Bank::make(alloc)?;
        Ok(GroupCells { keys, rows })
    }
}

/// No row is used.
pub fn make(alloc: Global) -> Result<Groups, NoMemory>
    ensures { IfOk result (λ m. m ≡ record m { entries = []; room = max_pairs }) }
{
    let cells = GroupCells::make(alloc)?;
    Map::of(alloc, cells, ROWS, MOST_PAIRS)
}
