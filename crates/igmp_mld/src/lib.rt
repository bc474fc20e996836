//! Messages of IGMP and MLD in frames: what each says to a bridge that snoops, and what the records of a report say.
//!
//! Bytes are read where they stand, without memory. Numbers have their highest byte first. A packet of IP version 4
//! (RFC 791) or 6 (RFC 8200) follows the type field of the frame; behind its header comes the message:
//!
//! | message | bytes | source |
//! |---|---|---|
//! | IGMP 0x11, 0x12, 0x16, 0x17 | type 1, time 1, checksum 2, group 4; a query of version 3 goes on | RFC 2236, RFC 3376 |
//! | IGMP 0x22 | type 1, reserved 1, checksum 2, reserved 2, count 2, records | RFC 3376 section 4.2 |
//! | MLD 130, 131, 132 | type 1, code 1, checksum 2, time 2, reserved 2, group 16; a query of version 2 goes on | RFC 2710, RFC 3810 |
//! | MLD 143 | type 1, reserved 1, checksum 2, reserved 2, count 2, records | RFC 3810 section 5.2 |
//!
//! A message of MLD stands behind a hop-by-hop header. The header checksum, router alerts and hop limits aren't tested.
#![tactic(auto)]

mod acts;
mod checksum;
mod igmp;
mod message;
mod mld;
mod numbers;
mod records;

pub use crate::acts::Records;
pub use crate::checksum::sum_behind;
pub use crate::message::classify;
