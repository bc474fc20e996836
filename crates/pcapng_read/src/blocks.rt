//! The packets of a capture, one by one.
ghost use Rattle.std.specs.Prelude.{◌≡◌, ◌≤◌, ◌+◌, ◌^◌, nat_lt, true, length};
ghost use Rattle.std.specs.List.{list_all};
ghost use Rattle.br_model.specs.Wire.Captures.{capture};
ghost use Rattle.pcapng_read.specs.Telling.{TellsNext};

use crate::block::{FRAME, front};
use crate::fault::CapFault;
use crate::section::says;
use br_model::capture::{Order, Packet};
use std::alloc::Global;
use std::marker::Model;

/// What is left of a capture: its packets up to the end, or up to the first broken block.
#[derive(Drop)]
pub struct Blocks<'a> {
    alloc: Global,
    ports: u32,
    links: Vec<u16>,
    order: Option<Order>,
    at: u32,
    rest: &'a [u8],
}

impl<'a> Model for Blocks<'a> {
    ghost use Rattle.std.specs.Prelude.{◌≤◌, ◌+◌, ◌^◌, length};
    ghost use Rattle.br_model.specs.Wire.Captures.{Capture, cut, read_cut};

    ghost Value = { Capture };

    ghost view = { λ b. read_cut b.ports b.links.items (cut 0 b.at b.order b.rest.now) };

    ghost invariant = { λ b. (length b.links.items ≤ b.ports) × (b.at + length b.rest.now ≤ 2 ^ 24) };
}

impl<'a> Blocks<'a> {
    /// The packets of these bytes, for so many declared ports: each has its port. Allocates nothing.
    pub fn of(alloc: Global, bytes: &'a [u8], ports: u32) -> Blocks<'a>
        requires { length bytes.now ≤ 2 ^ 24 }
        ensures packets { result ≡ capture ports bytes.now }
        ensures have_ports { list_all (λ p. nat_lt p.interface ports) result.packets ≡ true }
    {
        Blocks {
            alloc,
            ports,
            links: Vec::new(alloc),
            order: None,
            at: 0,
            rest: bytes,
        }
    }

    /// The next packet, `None` at the end of the bytes. After a fault, or at the end, it answers the same again. A packet
    /// that was captured shorter than it was is as it was captured, of no bytes where none were.
    pub fn next(&mut self) -> Result<Option<Packet>, CapFault>
        ensures { TellsNext self.old result self.new }
    {
        while !self.rest.is_empty() {
            let block = match front(self.order, self.rest) {
                Ok(block) => block,
                Err(kind) => {
                    return Err(CapFault::At {
                        offset: self.at,
                        kind,
                    });
                }
            };
            let said = says(self.alloc, self.ports, self.at, &mut self.links, &block)?;
            let total = block.body.len() + FRAME;
            self.order = Some(block.order);
            self.at += total as u32;
            self.rest = &self.rest[total..];
            if said.is_some() {
                return Ok(said);
            }
        }
        Ok(None)
    }
}
