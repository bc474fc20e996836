//! Lines of messages, followed to their end.
ghost use Rattle.std.specs.Prelude.{◌≡◌, ◌+◌, ◌-◌, ◌<◌, ◌≤◌, ◌^◌, ◌++◌, IfOk, OnOk, None, Some, if◌then◌else◌};
ghost use Rattle.std.specs.String.{string_bytes};
ghost use Rattle.neigh_netlink.specs.Follow.{Going, bad, closes_at, followed_at, line_says, opened, takes};
ghost use Rattle.neigh_netlink.specs.MessageLines.{ended_by, ending_of};

use crate::row_lines::append_table;
use crate::{LineFault, NoMemory, Table, append_bad, says_end};
use std::alloc::Global;
use std::marker::Model;

/// How lines of messages end.
#[derive(Clone, Copy)]
pub enum FollowEnd {
    /// By the line `end`.
    Ended,
    /// By the bad line of this number, counted from 1, for this cause.
    Bad(u32, LineFault),
}

// The lines end where this is the last one.
fn end_if(last: bool) -> Option<FollowEnd>
    ensures { result ≡ (if last then Some FollowEnd.Ended else None) }
{
    if last { Some(FollowEnd::Ended) } else { None }
}

/// The table of the lines so far, and how many they are. Contracts see them as what these lines give, which go on.
#[derive(Drop)]
pub struct Follower {
    lines: u32,
    table: Table,
}

impl Model for Follower {
    ghost use Rattle.neigh_netlink.specs.Follow.{Following, Going};

    ghost Value = { Following };

    ghost view = { λ f. record { lines = f.lines; table = f.table; ending = Going } };
}

impl Follower {
    /// Before the first line. It takes the memory for all entries that may come.
    pub fn make(alloc: Global) -> Result<Follower, NoMemory>
        ensures { IfOk result (λ f. f ≡ opened.following) }
    {
        let table = Table::make(alloc)?;
        Ok(Follower { lines: 0, table })
    }

    // The next line is bad.
    fn bad(&self, why: LineFault) -> FollowEnd
        requires { self.now.lines < 2 ^ 32 - 1 }
        ensures { (bad self.now why).ending ≡ ending_of result }
    {
        FollowEnd::Bad(self.lines + 1, why)
    }

    /// The next line is longer than a line may be.
    pub fn bad_length(&self) -> FollowEnd
        requires { self.now.lines < 2 ^ 32 - 1 }
        ensures { (bad self.now LineFault.Long).ending ≡ ending_of result }
    {
        self.bad(LineFault::Long)
    }

    /// Takes a line, without its line feed, and answers how the lines end with it, if they do. Allocates nothing.
    pub fn take(&mut self, line: &[u8]) -> Option<FollowEnd>
        requires { self.old.lines < 2 ^ 32 - 1 }
        ensures takes { takes self.old (line_says line.now) ≡ ended_by self.new result }
        ensures going { self.new.ending ≡ Going }
        ensures lines { self.new.lines ≤ self.old.lines + 1 }
    {
        match self.table.follow(line) {
            Ok(last) => {
                self.lines += 1;
                end_if(last)
            }
            Err(why) => Some(self.bad(why)),
        }
    }

    /// How the lines end where the input does, with these bytes behind the last line feed.
    pub fn close(&self, rest: &[u8]) -> FollowEnd
        requires { self.now.lines < 2 ^ 32 - 1 }
        ensures { (closes_at Going self.now rest.now).ending ≡ ending_of result }
    {
        if says_end(rest) {
            FollowEnd::Ended
        } else {
            self.bad(LineFault::Unended)
        }
    }

    // Writes behind the text what is to be written where the lines end so.
    fn append_text(&self, alloc: Global, end: FollowEnd, text: &mut String) -> Result<(), NoMemory>
        ensures { OnOk result (string_bytes text.new ≡ string_bytes text.old ++ followed_at (ending_of end) self.now.table) }
    {
        match end {
            FollowEnd::Ended => append_table(alloc, &self.table, text),
            FollowEnd::Bad(line, why) => append_bad(line, why, text),
        }
    }

    /// What is written where the lines end so: the table and a last line, or the bad line's alone.
    pub fn text(&self, alloc: Global, end: FollowEnd) -> Result<String, NoMemory>
        ensures { IfOk result (λ text. string_bytes text ≡ followed_at (ending_of end) self.now.table) }
    {
        let mut text = String::new(alloc);
        self.append_text(alloc, end, &mut text)?;
        Ok(text)
    }
}
