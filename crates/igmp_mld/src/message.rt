//! The message of a frame.
ghost use Rattle.std.specs.Prelude.{◌≡◌, Ok};
ghost use Rattle.br_model.specs.Wire.Frames.{frame};
ghost use Rattle.br_model.specs.Wire.Messages.{message, RecordsStand};

use crate::igmp::message_four;
use crate::mld::message_six;
use br_model::frame::{Head, McastMsg};

/// What the frame says to IGMP and MLD snooping (RFC 4541 section 2.1.1). `h` is the header that `parse` reads from `b`.
///
/// A frame whose IP header is broken or whose address isn't that of the packet's group is plain, and a message that is
/// broken is unrecognized: both are flooded. Only IGMP and MLD are read behind the header; the checksum is one pass over
/// the message. Where records are answered, they stand in `b` whole, for `Records::of` to read.
pub fn classify(b: &[u8], h: &Head) -> McastMsg
    requires { frame b.now ≡ Ok h.now }
    ensures value { result ≡ message b.now h.now }
    ensures records { RecordsStand b.now result }
{
    message_in(b, h)
}

#[tactic(auto, unfolding(br_model::specs::Wire::Messages::message))]
fn message_in(b: &[u8], h: &Head) -> McastMsg
    requires { frame b.now ≡ Ok h.now }
    ensures { result ≡ message b.now h.now }
{
    if h.kind == 0x0800 {
        message_four(h.dst, h.body, &b[h.body..])
    } else if h.kind == 0x86DD {
        message_six(h.dst, h.body, &b[h.body..])
    } else {
        McastMsg::Plain
    }
}
