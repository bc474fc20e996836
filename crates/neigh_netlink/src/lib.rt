//! Neighbour messages of netlink, written and read, and the table of addresses that they give.
//!
//! A switch driver and the tools of an operator learn of the bridge's address entries by messages: one for an entry that comes or
//! changes, and one for an entry that goes. Each message here has 48 bytes, little-endian:
//!
//! | bytes | field | value |
//! |---|---|---|
//! | 0 to 15 | `struct nlmsghdr`: length 4, type 2, flags 2, sequence 4, port 4 | 48; 28 (`RTM_NEWNEIGH`) or 29 (`RTM_DELNEIGH`); 0; the ticket; 0 |
//! | 16 to 27 | `struct ndmsg`: family 1, padding 1 and 2, ifindex 4, state 2, flags 1, type 1 | 7 (`AF_BRIDGE`); 0; 0; the port's number plus 1; by the kind; by the kind and the offload; 0 |
//! | 28 to 39 | an attribute: length 2, type 2, address 6, padding 2 | 10; 2 (`NDA_LLADDR`); the address; 0 |
//! | 40 to 47 | an attribute: length 2, type 2, VLAN 2, padding 2 | 6; 5 (`NDA_VLAN`); the VLAN; 0 |
//!
//! The further attributes of the kernel's messages are left out.
//!
//! A `Stream` gives the messages of a run as it goes on, and a `Table` follows lines of them. A `Follower` takes one line after another, up
//! to the line `end` or the first bad line, and then gives the text of the table, or that of the bad line.
#![tactic(auto)]

mod entries;
mod follow;
pub mod follow_laws;
mod follower;
mod lasts;
pub mod laws;
mod line;
mod neigh;
mod reading;
mod row_lines;
mod stream;
mod table;
mod writing;

pub use crate::follow::{LineFault, Said, append_bad, read_line, says_end};
pub use crate::follower::{FollowEnd, Follower};
pub use crate::line::append_line;
pub use crate::neigh::Neigh;
pub use crate::reading::read;
pub use crate::stream::Stream;
pub use crate::table::{Listing, Table, TakeFault};
pub use crate::writing::write;
pub use br_model::NoMemory;
