//! The messages of the spanning tree, as frames carry them.

/// A spanning tree message (BPDU), as IEEE 802.1D-1998 section 9.3 writes it. Times are in 1/256 s.
#[derive(Clone, Copy, PartialEq, Eq, Debug)]
pub enum BpduMsg {
    /// A configuration message: root identifier, root path cost, bridge and port identifier of the bridge that sends
    /// it; then the message's age and its root's times. Of the flags, bit 0 tells a topology change, bit 7
    /// acknowledges one.
    Config {
        flags: u8,
        root: u64,
        cost: u32,
        bridge: u64,
        port: u16,
        age: u16,
        max: u16,
        hello: u16,
        delay: u16,
    },
    /// The notification of a topology change.
    Tcn,
}
