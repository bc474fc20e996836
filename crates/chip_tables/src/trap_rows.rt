//! The trap rows: whose frames each hands to the processor alone. Row 1 is no frame's.

/// 01-80-C2-00-00-00, the spanning tree's.
pub const TREE: usize = 0;

/// 01-80-C2-00-00-02: the first of the link-local addresses, up to 0F in row 15, that are always trapped.
pub const FIRST_RESERVED: usize = 2;

/// IGMP: the first of snooping, of which all that follow are too.
pub const IGMP: usize = 16;

/// ICMPv6 type 130.
pub const MLD_QUERY: usize = 17;

/// ICMPv6 type 131.
pub const MLD_REPORT: usize = 18;

/// ICMPv6 type 132.
pub const MLD_DONE: usize = 19;

/// ICMPv6 type 143.
pub const MLD_RECORDS: usize = 20;

/// How many there are.
pub const COUNT: usize = 21;
