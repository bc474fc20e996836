//! The Internet checksum (RFC 1071).
ghost use Rattle.std.specs.Prelude.{◌≡◌};
ghost use Rattle.mcast_querier.specs.Queries.{checksum};

use igmp_mld::sum_behind;

/// What these bytes, which hold zeros in its place, are to hold there, so that they sum to all one bits.
#[tactic(auto, unfolding(crate::specs::Queries::checksum))]
pub fn checksum(bytes: &[u8]) -> u16
    ensures { result ≡ checksum bytes.now }
{
    (0xFFFF - sum_behind(0, bytes)) as u16
}
