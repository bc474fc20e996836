//! The lines of a frame that the chip or software sends.
ghost use Rattle.std.specs.Prelude.{◌≡◌, ℕ, ◌+◌, ◌*◌, ◌≤◌, ◌++◌, List, length, OnOk, Ok, Some};
ghost use Rattle.br_model.specs.Forward.Admission.{admit};
ghost use Rattle.br_model.specs.Forward.Class.{class};
ghost use Rattle.br_model.specs.Forward.Leave.{ports_out};
ghost use Rattle.br_model.specs.Forward.Untagged.{untagged_among};
ghost use Rattle.br_model.specs.Table.Domains.{Domains as DomainsValue, domain_of};
ghost use Rattle.br_model.specs.Wire.Frames.{frame as frame_of};
ghost use Rattle.br_model.specs.Wire.Messages.{message};
ghost use Rattle.br_model.specs.Plane.World.{sent};
ghost use Rattle.br_model.specs.Forward.Shares.{chip_out, soft_out};
ghost use Rattle.br_model.specs.Table.Table.{Table};
ghost use Rattle.br_model.specs.declared.frame.Head.{Head as HeadValue};
ghost use Rattle.hwdom_marks.specs.Marks.{domain_marked};
ghost use Rattle.plane_parts.specs.Sent.{lines_of, share_of};
ghost use Rattle.forward_rules.specs.Decided.{Decides};

use crate::NoMemory;
use br_model::domains::Domains;
use br_model::frame::{Class, Head};
use br_model::numbers::{Dom, Vid};
use ether_frames::{parts, tag_bytes};
use forward_rules::Verdict;
use hwdom_marks::{Mark, remaining};
use port_sets::Ports;
use std::alloc::AllocError;
use transcript_lines::Lines;

/// By which ports a frame leaves: those of its VLAN, and those of them that it leaves without a tag.
#[derive(Clone, Copy)]
pub struct Egress {
    pub vid: Option<Vid>,
    pub ports: Ports,
    pub untagged: Ports,
}

/// The ports of a chip's domain by which the chip sends a frame of which this was decided.
fn share(verdict: &Verdict, own: Dom, domains: &Domains) -> Ports
    ensures { (port : ℕ) → domain_of domains.now port ≡ Some own → result ≡ share_of domains.now port verdict.now.class verdict.now.ports }
{
    match verdict.class {
        Class::Drop | Class::Trap => Ports::empty(),
        Class::Copy | Class::Forward => {
            // law: the members ascend
            verdict.ports.members_ascend();
            verdict.ports.and(domains.ports_of(own))
        }
    }
}

impl Egress {
    /// That of the frame at the chip of the domain, by what the chip's table decides.
    pub fn of_share(verdict: &Verdict, own: Dom, domains: &Domains) -> Egress
        ensures { (t : Table) (port : ℕ) (bytes : List ℕ) (head : HeadValue) → domain_of domains.now port ≡ Some own
            → Decides domains.now t port head (message bytes head) verdict.now
            → (id : ℕ) → lines_of id bytes head result ≡ sent id (chip_out domains.now t port bytes head) }
    {
        Egress {
            vid: verdict.vid,
            ports: share(verdict, own, domains),
            untagged: verdict.untagged,
        }
    }

    /// That of a frame that a chip sends by these ports of its share, of which those are the untagged ones.
    pub fn at_chip(vid: Option<Vid>, ports: Ports, untagged: Ports) -> Egress
        ensures { (domains : DomainsValue) (t : Table) (port : ℕ) (bytes : List ℕ) (head : HeadValue) → vid ≡ admit t port head
            → ports ≡ share_of domains port (class domains t port head (message bytes head)) (ports_out t port head (message bytes head))
            → untagged ≡ untagged_among t vid ports
            → (id : ℕ) → lines_of id bytes head result ≡ sent id (chip_out domains t port bytes head) }
    {
        Egress {
            vid,
            ports,
            untagged,
        }
    }

    /// That of the frame in software, which leaves out the domain that the frame is marked with.
    pub fn of_verdict(verdict: &Verdict, mark: Option<Mark>, domains: &Domains) -> Egress
        ensures { (t : Table) (port : ℕ) (bytes : List ℕ) (head : HeadValue) → Decides domains.now t port head (message bytes head) verdict.now
            → (id : ℕ) → lines_of id bytes head result ≡ sent id (soft_out domains.now t port bytes head (domain_marked mark)) }
    {
        Egress {
            vid: verdict.vid,
            ports: remaining(verdict.ports, mark, domains),
            untagged: verdict.untagged,
        }
    }
}

/// Takes the room for the lines of a step by which a frame of these bytes leaves: its two forms, and three rows, for its lines, the
/// one before and the one behind them.
pub fn make_room(lines: &mut Lines, bytes: &[u8]) -> Result<(), NoMemory>
    ensures lines { lines.new.lines ≡ lines.old.lines }
    ensures saved { lines.new.saved ≡ lines.old.saved }
    ensures rows { OnOk result (3 ≤ lines.new.rows) }
    ensures bytes { OnOk result (2 * length bytes.now + 4 ≤ lines.new.bytes) }
{
    let twice = bytes.len().checked_mul(2).ok_or(AllocError)?;
    lines.reserve(3, twice.checked_add(4).ok_or(AllocError)?)
}

/// Adds the lines of the ports by which the frame leaves, for which there is room.
pub fn send(id: u32, bytes: &[u8], head: &Head, out: &Egress, lines: &mut Lines)
    requires frame { frame_of bytes.now ≡ Ok head.now }
    requires rows { 1 ≤ lines.old.rows }
    requires bytes { 2 * length bytes.now + 4 ≤ lines.old.bytes }
    ensures lines { lines.new.lines ≡ lines.old.lines ++ lines_of id bytes.now head.now out.now }
    ensures saved { lines.new.saved ≡ lines.old.saved }
    ensures rows { lines.old.rows ≤ lines.new.rows + 1 }
{
    let Some(vid) = out.vid else {
        return;
    };
    if out.ports.is_empty() {
        return;
    }
    let (front, rest) = parts(bytes, head);
    let tag = tag_bytes(bytes, head, vid);
    lines.push_sent(id, out.ports, out.untagged, front, &tag, rest);
}
