//! Rows of lines, and where their bytes stand.
ghost use Rattle.std.specs.Prelude.{◌≡◌, ◌≤◌};
ghost use Rattle.transcript_lines.specs.Rows.{at, moved, moved_row, row_answer, row_is_done, IsBehind, IsPlain};

use br_model::numbers::Port;
use br_model::steps::Refusal;
use br_model::transcript::Line;
use port_sets::Ports;

/// So many bytes of the arena, from a place on.
#[derive(Clone, Copy)]
pub struct Span {
    pub from: usize,
    pub len: usize,
}

/// One line, or those of a frame that leaves by several ports.
#[derive(Drop)]
pub enum Row {
    /// A line that has no bytes.
    One(Line),
    /// A `tx` line for each of the ports, ascending: with the plain bytes at the untagged ports, else with the tagged ones.
    Sent {
        id: u32,
        ports: Ports,
        untagged: Ports,
        plain: Span,
        tagged: Span,
    },
    /// A `ctl` line.
    Ctl {
        port: Port,
        bytes: Span,
    },
}

impl Span {
    /// No bytes.
    pub const NONE: Span = Span { from: 0, len: 0 };

    /// The bytes of the arena that it names; what would lie behind its end is left out.
    pub fn of<'a>(self, arena: &'a [u8]) -> &'a [u8]
        ensures { result.now ≡ at arena.now self }
    {
        let rest = &arena[self.from.min(arena.len())..];
        &rest[..self.len.min(rest.len())]
    }

    /// Where the same bytes stand in an arena without the first ones, which are so many.
    fn moved(self, front: usize) -> Span
        requires { front ≤ self.from }
        ensures { result ≡ moved front self }
    {
        Span {
            from: self.from - front,
            len: self.len,
        }
    }
}

/// A copy of a line that has no bytes.
fn copy_of(line: &Line) -> Line
    requires { IsPlain line.now }
    ensures { result ≡ line.now }
{
    match *line {
        Line::Chip {
            id,
            changes,
            applied,
            class,
        } => Line::Chip {
            id,
            changes,
            applied,
            class,
        },
        Line::Unread { id, why } => Line::Unread { id, why },
        Line::Soft { id, point } => Line::Soft { id, point },
        Line::Held { id, floor } => Line::Held { id, floor },
        Line::Tx { .. } | Line::Ctl { .. } => unreachable!(),
        Line::Overrun { id } => Line::Overrun { id },
        Line::Done { step, changes } => Line::Done { step, changes },
        Line::Refused { step, refusal } => Line::Refused { step, refusal },
        Line::End {
            steps,
            changes,
            pending,
            waiting,
        } => Line::End {
            steps,
            changes,
            pending,
            waiting,
        },
    }
}

impl Row {
    /// What the line among them that ends a step says of it, as `Line::answer` does.
    pub fn answer(&self) -> Option<(u32, Result<u32, Refusal>)>
        ensures { result ≡ row_answer self.now }
    {
        match self {
            Row::One(line) => line.answer(),
            Row::Sent { .. } | Row::Ctl { .. } => None,
        }
    }

    /// Whether one of its lines says that a step was done.
    pub(crate) fn is_done(&self) -> bool
        ensures { result ≡ row_is_done self.now }
    {
        matches!(self.answer(), Some((_, Ok(_))))
    }

    /// The same row over an arena without the first bytes, which are so many.
    pub(crate) fn moved(&self, front: usize) -> Row
        requires { IsBehind front self.now }
        ensures { result ≡ moved_row front self.now }
    {
        match self {
            Row::One(line) => Row::One(copy_of(line)),
            Row::Sent {
                id,
                ports,
                untagged,
                plain,
                tagged,
            } => Row::Sent {
                id: *id,
                ports: *ports,
                untagged: *untagged,
                plain: plain.moved(front),
                tagged: tagged.moved(front),
            },
            Row::Ctl { port, bytes } => Row::Ctl {
                port: *port,
                bytes: bytes.moved(front),
            },
        }
    }
}
