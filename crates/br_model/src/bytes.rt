//! Bytes of a frame, which contracts see as a list of numbers below 256.
use lists::Items;

/// Owned bytes, the first on the wire first.
pub type Bytes = Items<u8>;
