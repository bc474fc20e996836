//! Reads captures: bytes in the pcapng format (draft-ietf-opsawg-pcapng), packet by packet.
//!
//! A block is type 4, total length 4, body, total length 4 again. The total length is a multiple of 4, up to 2^20. Three
//! types of blocks are read, the others are skipped:
//!
//! | type | block | body |
//! |---|---|---|
//! | 0x0A0D0D0A | section header | magic 4, major version 2 (must be 1), minor version 2, section length 8, options |
//! | 1 | interface description | link type 2, reserved 2, snap length 4, options |
//! | 6 | enhanced packet | interface 4, time 8, captured 4, original 4, so many captured bytes padded to 4, options |
//!
//! The first block is a section header. The magic, 0x1A2B3C4D, tells the byte order of its section, and the interfaces of
//! a section count from 0. Interface i is the declared port in that place. Nothing is copied but the bytes of packets.
#![tactic(auto)]

mod block;
mod blocks;
mod fault;
pub mod laws;
mod numbers;
mod section;

pub use crate::blocks::Blocks;
pub use crate::fault::CapFault;
pub use br_model::capture::{CapKind, Packet};
