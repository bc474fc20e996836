//! Ethernet frames: their headers with or without an 802.1Q tag, and the bytes as they leave.
//!
//! A frame is what stands between preamble and frame check sequence (IEEE 802.3 clause 3.2): destination 6, source 6,
//! type 2, payload. Where the type is 0x8100, a tag's 2 bytes and then the real type follow (IEEE 802.1Q-2018 section
//! 9.6). A second tag is payload.
#![tactic(auto)]

mod bpdus;
mod frames;

pub use crate::bpdus::{BPDU_LENGTH, bpdu_frame, bpdu_read, bpdu_write};
pub use crate::frames::{dress, parse, parts, tag_bytes};
pub use br_model::NoMemory;
