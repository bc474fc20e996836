//! Keys in ascending order.
use crate::entries::Key;
use lists::Items;

/// A list of keys, ascending by VLAN and address.
pub type Keys = Items<Key>;
