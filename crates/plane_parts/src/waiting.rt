//! Frames that wait for software, or that it holds.
ghost use Rattle.std.specs.Prelude.{◌≡◌, Ok};
ghost use Rattle.br_model.specs.Wire.Frames.{frame as frame_of};
ghost use Rattle.br_model.specs.Wire.Messages.{message as message_of};
ghost use Rattle.hwdom_marks.specs.Marks.{domain_marked};

use br_model::bytes::Bytes;
use br_model::frame::{Head, McastMsg};
use br_model::numbers::Port;
use hwdom_marks::Mark;
use std::marker::Model;

/// A frame on its way to software, with the header of its bytes and what they say to snooping. Its mark names the domain in which a chip has sent it.
#[derive(Drop)]
pub struct Waiting {
    id: u32,
    port: Port,
    bytes: Bytes,
    head: Head,
    message: McastMsg,
    mark: Option<Mark>,
}

impl Model for Waiting {
    ghost use Rattle.std.specs.Prelude.{◌≡◌, Ok};
    ghost use Rattle.br_model.specs.Wire.Frames.{frame as frame_of};
    ghost use Rattle.br_model.specs.Wire.Messages.{message as message_of};
    ghost use Rattle.br_model.specs.Plane.World.{Waiting as WaitingValue};
    ghost use Rattle.hwdom_marks.specs.Marks.{domain_marked};

    ghost Value = { WaitingValue };

    ghost view = { λ f. record { id = f.id; port = f.port; bytes = f.bytes; head = f.head; mark = domain_marked f.mark } };

    ghost invariant = { λ f. (frame_of f.bytes ≡ Ok f.head) × (f.message ≡ message_of f.bytes f.head) };
}

impl Waiting {
    /// The frame whose header and message were read already. `id` is its number among those that entered.
    #[inline(always)]
    pub fn of(
        id: u32,
        port: Port,
        bytes: Bytes,
        head: Head,
        message: McastMsg,
        mark: Option<Mark>,
    ) -> Waiting
        requires frame { frame_of bytes ≡ Ok head }
        requires message { message ≡ message_of bytes head }
        ensures { result ≡ record { id = id; port = port; bytes = bytes; head = head; mark = domain_marked mark } }
    {
        Waiting {
            id,
            port,
            bytes,
            head,
            message,
            mark,
        }
    }

    pub fn id(&self) -> u32
        ensures { result ≡ self.now.id }
    {
        self.id
    }

    pub fn port(&self) -> Port
        ensures { result ≡ self.now.port }
    {
        self.port
    }

    pub fn bytes(&self) -> &[u8]
        ensures value { result.now ≡ self.now.bytes }
        ensures frame { frame_of self.now.bytes ≡ Ok self.now.head }
    {
        self.bytes.as_slice()
    }

    pub fn head(&self) -> &Head
        ensures value { result.now ≡ self.now.head }
        ensures frame { frame_of self.now.bytes ≡ Ok self.now.head }
    {
        &self.head
    }

    /// What it says to snooping.
    pub fn message(&self) -> &McastMsg
        ensures { result.now ≡ message_of self.now.bytes self.now.head }
    {
        &self.message
    }

    /// The domain whose chip has sent the frame to its own ports already, if one has.
    pub fn mark(&self) -> Option<Mark>
        ensures { domain_marked result ≡ self.now.mark }
    {
        self.mark
    }
}

/// A frame that software holds, and the published count from then, by which it may be decided at the earliest.
#[derive(Drop)]
pub struct Holding {
    frame: Waiting,
    floor: u32,
}

impl Model for Holding {
    ghost use Rattle.br_model.specs.Plane.World.{Holding as HoldingOf};

    ghost Value = { HoldingOf };

    ghost view = { λ h. record { waiting = h.frame; floor = h.floor } };
}

impl Holding {
    /// `floor` is how many changes are published when the frame is held.
    pub fn of(frame: Waiting, floor: u32) -> Holding
        ensures { result ≡ record { waiting = frame; floor = floor } }
    {
        Holding { frame, floor }
    }

    pub fn frame(&self) -> &Waiting
        ensures { result.now ≡ self.now.waiting }
    {
        &self.frame
    }

    pub fn floor(&self) -> u32
        ensures { result ≡ self.now.floor }
    {
        self.floor
    }

    pub fn into_frame(self) -> Waiting
        ensures { result ≡ self.waiting }
    {
        self.frame
    }
}
