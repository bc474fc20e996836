//! The table of lines of messages, up to their end or to the first bad one.
ghost use Rattle.std.specs.Prelude.{◌≡◌, ◌≤◌, IfOk, length};
ghost use Rattle.br_model.specs.Table.Limits.{most_bytes};
ghost use Rattle.neigh_netlink.specs.Follow.{opened};
ghost use Rattle.neigh_netlink.specs.MessageLines.{ending_of};
ghost use Rattle.whole_texts.specs.Messages.{EndsSo, TellsTable, lines_end_well};

use crate::NoMemory;
use crate::replaying::Told;
use br_model::limits::LONGEST_LINE;
use neigh_netlink::{FollowEnd, Follower};
use scenario_play::first_line;
use std::alloc::Global;

/// Takes all lines, by a follower that has taken none.
fn follow_lines(follower: &mut Follower, bytes: &[u8]) -> FollowEnd
    requires first { follower.old ≡ opened.following }
    requires few { length bytes.now ≤ most_bytes }
    ensures { EndsSo bytes.now follower.new.table result }
{
    let mut rest = bytes;
    while let Some(front) = first_line(rest) {
        if front.line.len() > LONGEST_LINE {
            return follower.bad_length();
        }
        match follower.take(front.line) {
            Some(end) => return end,
            None => rest = front.behind,
        }
    }
    if rest.len() > LONGEST_LINE {
        return follower.bad_length();
    }
    follower.close(rest)
}

fn is_well(end: FollowEnd) -> bool
    ensures { result ≡ lines_end_well (ending_of end) }
{
    match end {
        FollowEnd::Ended => true,
        FollowEnd::Bad(..) => false,
    }
}

/// The table that lines of messages give, as text.
///
/// # Errors
///
/// `NoMemory` where the table or its text finds no room.
pub fn follow(alloc: Global, bytes: &[u8]) -> Result<Told, NoMemory>
    requires { length bytes.now ≤ most_bytes }
    ensures { IfOk result (TellsTable bytes.now) }
{
    let mut follower = Follower::make(alloc)?;
    let end = follow_lines(&mut follower, bytes);
    let text = follower.text(alloc, end)?;
    let well = is_well(end);
    Ok(Told { text, well })
}
