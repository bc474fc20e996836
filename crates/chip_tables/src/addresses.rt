//! The address rows as the cells of a map.
ghost use Rattle.std.specs.Prelude.{◌≡◌, ◌≢◌, ◌<◌, ◌≤◌, ◌^◌, ℕ, IfOk, None, Some, [], length, replicate, slice_get, slice_index_or};
ghost use Rattle.std.specs.List.{All};
ghost use Rattle.br_model.specs.Table.Limits.{most_addresses};
ghost use Rattle.open_addressing.specs.Hashed.{mix};
ghost use Rattle.open_addressing.specs.Hashes.{mix-lt};
ghost use Rattle.open_addressing.specs.Pairs.{packed};
ghost use Rattle.chip_tables.specs.Rows.{key_of};
ghost use Rattle.chip_tables.specs.AddressCells.{ordered, address_cells, extern_in, places_of, IsKept};

use crate::NoMemory;
use crate::rows::{AddressRow, address_row, is_extern, key_in, pack_address, pack_key};
use br_model::limits::MOST_ADDRESSES;
use br_model::numbers::{Mac, Vid};
use chip_regs::{Bank, Row};
use open_addressing::map::Map;
use open_addressing::{Cells, mixed};
use std::alloc::Global;

/// An address of a VLAN.
pub type Key = (Vid, Mac);

/// The used address rows by their keys.
pub type Addresses = Map<Key, AddressRow, AddressCells>;

/// How many address rows there are.
pub const ROWS: usize = 32768;

/// A row is used where its key isn't 0.
#[derive(Drop)]
pub struct AddressCells {
    bank: Bank<32768, 9>,
    ghost sized: { length bank ≡ 32768 },
    ghost kept: { All IsKept bank },
}

/// The key of a VLAN and an address.
pub fn key(vid: Vid, mac: Mac) -> Key
    ensures value { result ≡ (vid, mac) }
    ensures some { packed (vid, mac) ≢ 0 }
    ensures below { mac < 2 ^ 48 }
{
    // law: no key's number is 0
    let _ = number_of(&(vid, mac));
    (vid, mac)
}

/// The number of a key, in the order of VLAN and address.
fn number_of(key: &Key) -> u64
    ensures value { result ≡ packed key.now }
    ensures some { result ≢ 0 }
    ensures below { key.now.1 < 2 ^ 48 }
{
    key.1.in_vlan(key.0)
}

/// That of the key in a row.
fn number_in(row: &Row<9>) -> u64
    ensures { result ≡ ordered (key_of row.now) }
{
    let key = key_in(row);
    key % 4096 * Mac::VLAN_STEP + key / 4096
}

impl Cells<Key, AddressRow> for AddressCells {
    ghost number = { packed };

    ghost hash = { mix };

    ghost cells = { λ s. address_cells s.bank };

    fn holds(&self, i: usize, key: &Key) -> bool {
        number_in(self.bank.at(i)) == number_of(key)
    }

    fn is_below(&self, i: usize, key: &Key) -> bool {
        number_in(self.bank.at(i)) < number_of(key)
    }

    fn hash(key: &Key) -> u64 {
        mixed(number_of(key))
    }

    fn value(&self, i: usize) -> AddressRow {
        address_row(self.bank.at(i))
    }

    fn put(&mut self, i: usize, key: &Key, value: AddressRow) {
        self.bank
            .put(i, pack_address(pack_key(key.0, key.1), &value));
    }

    fn clear(&mut self, i: usize) {
        self.bank.put(i, Row::zero());
    }

    ghost hashes = { mix-lt };
}

impl AddressCells {
    /// No row is used.
    fn make(alloc: Global) -> Result<AddressCells, NoMemory>
        ensures { IfOk result (λ s. address_cells s.bank ≡ replicate 32768 None) }
    {
        let bank = Bank::make(alloc)?;
        Ok(AddressCells { bank })
    }

    /// Before which place all rows stand that were written to.
    pub fn written(&self) -> usize
        ensures few { result ≤ 32768 }
        ensures rest { (i : ℕ) → result ≤ i → i < 32768 → slice_get (places_of (address_cells self.now.bank)) i ≡ Some None }
    {
        self.bank.written()
    }

    /// The key in a row.
    pub fn key(&self, i: usize) -> Option<Key>
        requires { i < 32768 }
        ensures { slice_get (places_of (address_cells self.now.bank)) i ≡ Some result }
    {
        let key = key_in(self.bank.at(i));
        if key == 0 {
            return None;
        }
        let Some(vid) = Vid::new((key % 4096) as u16) else {
            unreachable!()
        };
        let Some(mac) = Mac::from_number(key / 4096) else {
            unreachable!()
        };
        Some((vid, mac))
    }

    /// The key and what a row says of it, where a chip learned the entry.
    pub fn extern_in(&self, i: usize) -> Option<(Key, AddressRow)>
        requires { i < 32768 }
        ensures { result ≡ extern_in (slice_index_or (address_cells self.now.bank) i None) }
    {
        let row = self.bank.at(i);
        if !is_extern(row) {
            return None;
        }
        let key = self.key(i)?;
        Some((key, address_row(row)))
    }
}

/// No row is used.
pub fn make(alloc: Global) -> Result<Addresses, NoMemory>
    ensures { IfOk result (λ m. m ≡ record m { entries = []; room = most_addresses }) }
{
    let cells = AddressCells::make(alloc)?;
    Map::of(alloc, cells, ROWS, MOST_ADDRESSES)
}
