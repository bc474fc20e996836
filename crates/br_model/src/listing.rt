//! The tables that can be listed.

/// A table that `show` lists. Each is that of all accepted changes.
#[derive(Clone, Copy)]
pub enum Listing {
    /// The forwarding database, by VLAN and address.
    Fdb,
    /// The members of VLANs, by port and VLAN.
    Vlan,
    /// The members of groups, by VLAN, group (version 4 first) and port.
    Mdb,
}
