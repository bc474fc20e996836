//! The frames on their way to software.
ghost use Rattle.std.specs.Prelude.{◌≡◌, ◌==◌, ◌+◌, ◌<◌, ◌≤◌, ◌^◌, ◌++◌, [], not, nat_lt, length, drop, slice_get, Option, Some, None, Ok, IfOk, OnOk, OnErr};
ghost use Rattle.std.specs.List.{filter, find};
ghost use Rattle.std.specs.Option.{option_copied};
ghost use Rattle.std.specs.VecDeque.{deque_capacity};
ghost use Rattle.br_model.specs.Table.Limits.{most_waiting};
ghost use Rattle.br_model.specs.Wire.Frames.{frame as frame_of};
ghost use Rattle.br_model.specs.Wire.Messages.{message as message_of};
ghost use Rattle.hwdom_marks.specs.Marks.{domain_marked};
ghost use Rattle.plane_parts.specs.Queued.{Queued, hold_line, holds_oldest};
ghost use Rattle.plane_parts.specs.Arrivals.{arrival, arrival_lines, settled, IsArrival};
ghost use Rattle.transcript_lines.specs.Rows.{IsPlain};

use crate::NoMemory;
use crate::waiting::{Holding, Waiting};
use br_model::bytes::Bytes;
use br_model::frame::{Head, McastMsg};
use br_model::limits::MOST_WAITING;
use br_model::numbers::Port;
use br_model::steps::Refusal;
use br_model::transcript::Line;
use hwdom_marks::Mark;
use std::alloc::{AllocError, Global};
use std::collections::{BTreeMap, VecDeque};
use std::marker::Model;
use transcript_lines::Lines;

/// What becomes of a frame that enters.
#[derive(Drop)]
pub enum Arrival {
    /// It doesn't go on to software.
    PassesBy,
    Waits(Waiting),
    /// It would wait, but as many wait or are held as may.
    Overruns,
}

impl Arrival {
    /// Adds the line that says of the frame with this id that it doesn't wait for want of room, if so. There is room for the line.
    pub fn tell(&self, id: u32, lines: &mut Lines)
        requires { 1 ≤ lines.old.rows }
        ensures lines { lines.new.lines ≡ lines.old.lines ++ arrival_lines id self.now }
        ensures saved { lines.new.saved ≡ lines.old.saved }
    {
        match self {
            Arrival::Overruns => lines.push_reserved(Line::Overrun { id }),
            Arrival::PassesBy => {}
            Arrival::Waits(_) => {}
        }
    }
}

/// The frames that wait, those that software holds, and the id of the next frame.
#[derive(Drop)]
pub struct Frames {
    // The oldest first. It has its room from the beginning.
    waiting: VecDeque<Waiting>,
    // By their ids.
    held: BTreeMap<u32, Holding>,
    next: u32,
}

impl Model for Frames {
    ghost use Rattle.std.specs.Prelude.{◌≡◌, ◌≤◌};
    ghost use Rattle.std.specs.VecDeque.{deque_capacity};
    ghost use Rattle.br_model.specs.Table.Limits.{most_waiting};
    ghost use Rattle.plane_parts.specs.Queued.{Queued, IsQueued, IsKeyed, held_in};

    ghost Value = { Queued };

    ghost view = { λ f. record { waiting = f.waiting.items; held = held_in f.held.entries; next = f.next } };

    ghost invariant = { λ f. (most_waiting ≤ deque_capacity f.waiting) × IsKeyed f.held.entries
        × IsQueued (record { waiting = f.waiting.items; held = held_in f.held.entries; next = f.next }) };
}

/// The oldest leaves. One that waits alone leaves from the back, so that the next takes its place, and no walk goes round all the room.
fn take_oldest(waiting: &mut VecDeque<Waiting>) -> Option<Waiting>
    ensures oldest { result ≡ slice_get waiting.old.items 0 }
    ensures rest { waiting.new.items ≡ drop 1 waiting.old.items }
    ensures capacity { deque_capacity waiting.new ≡ deque_capacity waiting.old }
{
    if waiting.len() == 1 {
        return waiting.pop_back();
    }
    waiting.pop_front()
}

impl Frames {
    /// No frame; the first will have the id 1. It takes the room for those that may wait.
    pub fn make(alloc: Global) -> Result<Frames, NoMemory>
        ensures { IfOk result (λ f. f ≡ record { waiting = []; held = []; next = 1 }) }
    {
        Ok(Frames {
            waiting: VecDeque::with_capacity(alloc, MOST_WAITING)?,
            held: BTreeMap::new(alloc),
            next: 1,
        })
    }

    /// The id of the next frame.
    pub fn next_id(&self) -> u32
        ensures { result ≡ self.now.next }
    {
        self.next
    }

    /// How many frames wait.
    pub fn waiting(&self) -> usize
        ensures { result ≡ length self.now.waiting }
    {
        self.waiting.len()
    }

    /// How many frames are held.
    pub fn held(&self) -> usize
        ensures { result ≡ length self.now.held }
    {
        self.held.len()
    }

    /// Whether as many frames wait or are held as may.
    pub fn is_full(&self) -> bool
        ensures { result ≡ not (nat_lt (length self.now.waiting + length self.now.held) most_waiting) }
    {
        self.waiting.len() + self.held.len() >= MOST_WAITING
    }

    /// A frame that goes on to software, with the next id. It keeps its bytes.
    #[inline(always)]
    pub fn arrive(
        &self,
        port: Port,
        bytes: Bytes,
        head: &Head,
        message: &McastMsg,
        mark: Option<Mark>,
    ) -> Arrival
        requires frame { frame_of bytes ≡ Ok head.now }
        requires message { message.now ≡ message_of bytes head.now }
        ensures value { result ≡ arrival self.now (record {
          id = self.now.next;
          port = port;
          bytes = bytes;
          head = head.now;
          mark = domain_marked mark;
        }) }
        ensures room { IsArrival self.now result }
    {
        if self.is_full() {
            return Arrival::Overruns;
        }
        Arrival::Waits(Waiting::of(self.next, port, bytes, *head, *message, mark))
    }

    /// The next id is taken by a frame that arrived.
    #[inline(always)]
    pub fn settle(&mut self, arrival: Arrival)
        requires last { self.old.next + 1 < 2 ^ 32 }
        requires room { IsArrival self.old arrival }
        ensures { self.new ≡ settled self.old arrival }
    {
        if let Arrival::Waits(frame) = arrival {
            self.waiting.push_back_reserved(frame);
        }
        self.next += 1;
    }

    /// The frame that waits longest.
    pub fn oldest(&self) -> Option<&Waiting>
        ensures { option_copied result ≡ slice_get self.now.waiting 0 }
    {
        self.waiting.front()
    }

    /// The frame that waits longest leaves.
    pub fn serve(&mut self) -> Option<Waiting>
        ensures oldest { result ≡ slice_get self.old.waiting 0 }
        ensures rest { self.new ≡ record self.old { waiting = drop 1 self.old.waiting } }
    {
        take_oldest(&mut self.waiting)
    }

    /// The line of the step that holds the frame that waits longest with this floor.
    pub fn hold_line(&self, step: u32, floor: u32) -> Line
        ensures line { result ≡ hold_line step floor self.now.waiting }
        ensures plain { IsPlain result }
    {
        match self.oldest() {
            Some(frame) => Line::Held {
                id: frame.id(),
                floor,
            },
            None => Line::Refused {
                step,
                refusal: Refusal::NothingWaiting,
            },
        }
    }

    /// The frame that waits longest is held with this floor; `false` where none waits. After want of memory all is as before.
    pub fn hold(&mut self, floor: u32) -> Result<bool, NoMemory>
        ensures some { IfOk result (λ some. some ≡ not (length self.old.waiting == 0)) }
        ensures ok { OnOk result (self.new ≡ holds_oldest self.old floor self.old.waiting) }
        ensures err { OnErr result (self.new ≡ self.old) }
    {
        let Some(frame) = self.waiting.pop_front() else {
            return Ok(false);
        };
        match self.held.insert(frame.id(), Holding::of(frame, floor)) {
            Ok(_) => Ok(true),
            Err(failed) => {
                self.waiting
                    .push_front_reserved(failed.value.1.into_frame());
                Err(AllocError)
            }
        }
    }

    /// The frame with this id, if it is held.
    pub fn find(&self, id: u32) -> Option<&Holding>
        ensures { option_copied result ≡ find (λ h. h.waiting.id == id) self.now.held }
    {
        self.held.get(&id)
    }

    /// The held frame with this id leaves.
    pub fn release(&mut self, id: u32) -> Option<Holding>
        ensures found { result ≡ find (λ h. h.waiting.id == id) self.old.held }
        ensures rest { self.new ≡ record self.old { held = filter (λ h. not (h.waiting.id == id)) self.old.held } }
    {
        self.held.remove(&id)
    }
}
