//! Keys as single numbers of 60 bits, in the order of the keys: the VLAN above the 48 bits of the address.
ghost use Rattle.std.specs.Prelude.{◌≡◌, ◌≢◌, ◌/◌, ◌^◌, ◌<◌, ◌≤◌, IfOk, IsTrue, map};
ghost use Rattle.std.specs.List.{list_all};
ghost use Rattle.open_addressing.specs.Pairs.{packed, unpacked};
ghost use Rattle.fdb_core.specs.Packing.{is_key};

use crate::NoMemory;
use crate::entries::Key;
use br_model::numbers::{Mac, Vid};
use std::alloc::Global;

/// The number of a key.
pub fn pack(vid: Vid, mac: Mac) -> u64
    ensures value { result ≡ packed (vid, mac) }
    ensures some { result ≢ 0 }
    ensures is_key { IsTrue (is_key result) }
    ensures below { mac < 2 ^ 48 }
{
    mac.in_vlan(vid)
}

/// The key of a number.
#[tactic(auto, unfolding(open_addressing::specs::Pairs::unpacked))]
fn unpack(number: u64) -> Key
    requires low { 1 ≤ number / 2 ^ 48 }
    requires high { number / 2 ^ 48 ≤ 4094 }
    ensures { result ≡ unpacked number }
{
    let Some(vid) = Vid::new((number / Mac::VLAN_STEP) as u16) else {
        unreachable!()
    };
    let Some(mac) = Mac::from_number(number % Mac::VLAN_STEP) else {
        unreachable!()
    };
    (vid, mac)
}

/// The keys of numbers, in their order.
pub fn unpack_all(alloc: Global, numbers: &[u64]) -> Result<Vec<Key>, NoMemory>
    requires { IsTrue (list_all is_key numbers.now) }
    ensures { IfOk result (λ keys. keys.items ≡ map unpacked numbers.now) }
{
    let mut keys = Vec::with_capacity(alloc, numbers.len())?;
    for number in numbers {
        keys.push(unpack(*number))?;
    }
    Ok(keys)
}
