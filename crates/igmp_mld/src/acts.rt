//! What the records of a report say (RFC 3376 section 4.2, RFC 3810 section 5.2).
ghost use Rattle.std.specs.Prelude.{◌≡◌, true, List};
ghost use Rattle.std.specs.Iterator.{YieldsFirst, item_count};
ghost use Rattle.br_model.specs.declared.frame.Act.{Act};
ghost use Rattle.br_model.specs.declared.frame.McastMsg.{McastMsg};
ghost use Rattle.br_model.specs.Wire.Messages.{RecordsStand};
ghost use Rattle.br_model.specs.Wire.Records.{act_of, act_on, acts, acts_of, record_fits, records_fit};
ghost use Rattle.igmp_mld.specs.Said.{acts_said};

use crate::numbers::two_at;
use crate::records::{group_at, record_length};
use br_model::frame::{Act, McastMsg};
use br_model::group::Group;
use std::marker::Model;

/// The records of a report that are left: one act for each, in their order.
///
/// A record is type 1, auxiliary length 1 in words of 32 bits, source count 2, group 4 or 16, so many sources of 4 or 16,
/// and the auxiliary words. Types 1 and 3 without sources leave the group; with sources, and types 2, 4 and 5, they
/// join it; other types, and a group that isn't multicast, change nothing.
#[derive(Drop)]
pub struct Records<'a> {
    six: bool,
    left: u16,
    rest: &'a [u8],
}

impl<'a> Model for Records<'a> {
    ghost Value = { List Act };

    ghost view = { λ r. acts_of r.six r.left r.rest.now };

    ghost invariant = { λ r. records_fit r.six r.left r.rest.now ≡ true };
}

impl<'a> Records<'a> {
    /// `count` records, from byte `first` of the frame on, as `classify` answers them for these bytes.
    pub fn of(b: &'a [u8], six: bool, first: usize, count: u16) -> Records<'a>
        requires { RecordsStand b.now (McastMsg.Records six first count) }
        ensures { result ≡ acts b.now six first count }
    {
        Records {
            six,
            left: count,
            rest: &b[first..],
        }
    }

    /// The records of the message that `classify` answers for these bytes: none where it is of another kind.
    pub fn said_by(bytes: &'a [u8], message: &McastMsg) -> Records<'a>
        requires { RecordsStand bytes.now message.now }
        ensures { result ≡ acts_said bytes.now message.now }
    {
        match *message {
            McastMsg::Records { six, first, count } => Records::of(bytes, six, first, count),
            McastMsg::Plain
            | McastMsg::Payload(_)
            | McastMsg::Query { .. }
            | McastMsg::Report(_)
            | McastMsg::Leave(_)
            | McastMsg::Unrecognized => Records::of(bytes, false, 0, 0),
        }
    }
}

impl<'a> Iterator for Records<'a> {
    type Item = Act;

    ghost next_gives = { YieldsFirst (λ rest. rest) };

    ghost remaining = { item_count (λ rest. rest) };

    fn next(&mut self) -> Option<Act> {
        if self.left == 0 {
            return None;
        }
        let act = act_of(self.six, self.rest);
        let size = record_length(self.six, self.rest);
        self.rest = &self.rest[size..];
        self.left -= 1;
        Some(act)
    }
}

// What the record says that the bytes begin with.
fn act_of(six: bool, bytes: &[u8]) -> Act
    requires { record_fits six bytes.now ≡ true }
    ensures { result ≡ act_of six bytes.now }
{
    act_on(bytes[0], two_at(bytes, 2), group_at(six, bytes, 4))
}

fn act_on(kind: u8, sources: u16, group: Option<Group>) -> Act
    ensures { result ≡ act_on kind sources group }
{
    let Some(group) = group else {
        return Act::Nothing;
    };
    match kind {
        1 | 3 => {
            if sources == 0 {
                Act::Part(group)
            } else {
                Act::Join(group)
            }
        }
        2 | 4 | 5 => Act::Join(group),
        _ => Act::Nothing,
    }
}
