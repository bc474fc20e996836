//! What a capture holds: packets, and the faults of its blocks.
use crate::bytes::Bytes;

/// Which byte of a number stands first, in all numbers of a section.
#[derive(Clone, Copy)]
pub enum Order {
    HighFirst,
    LowFirst,
}

/// What is wrong with a block, by the first test that it fails, in this order. The lengths are tested between `Magic` and
/// `Version`: the total length itself, then whether the bytes reach so far, then its repetition.
#[derive(Clone, Copy, PartialEq, Eq, Debug)]
pub enum CapKind {
    /// The bytes end in the block: fewer than 12 are left, or fewer than its total length.
    Short,
    /// It is the first block, and no section header.
    First,
    /// The magic of a section header is in neither byte order.
    Magic,
    /// The total length is below the least of the block's type, above 2^20, no multiple of 4, or unlike its repetition.
    Length,
    /// The major version of a section header isn't 1.
    Version,
    /// The interface of a packet isn't described in its section, or has no port.
    Interface,
    /// The link type of a packet's interface isn't Ethernet.
    Link,
    /// The bytes of a packet don't fit into its block.
    Captured,
}

/// A packet. Its interface is the declared port in that place, from 0 on.
#[derive(Drop)]
pub struct Packet {
    pub interface: u32,
    pub bytes: Bytes,
}
