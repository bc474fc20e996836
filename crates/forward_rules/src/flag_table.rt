//! The flags of ports.
ghost use Rattle.std.specs.Prelude.{◌≡◌, ℕ, ◌<◌, ◌==◌, ◌/◌, ◌%◌, ◌^◌, [], Some, None};
ghost use Rattle.std.specs.Option.{unwrap_or};
ghost use Rattle.std.specs.Ordering.{nat_cmp};
ghost use Rattle.br_model.specs.Table.Domains.{entries_from};
ghost use Rattle.br_model.specs.Data.Maps.{get, put, without};
ghost use Rattle.br_model.specs.Forward.Targets.{flood, mcast_flood, bcast_flood, isolated};
ghost use Rattle.forward_rules.specs.PortSets.{flag_is_set, flagged};

use crate::place::place_in;
use br_model::change::Flags;
use br_model::numbers::Port;
use port_sets::Ports;
use std::marker::Model;

/// The flags of each port that has some, seen as the list of pairs of a port and its flags, ascending by port.
#[derive(Drop)]
pub struct FlagTable {
    by_port: [Option<Flags>; Port::PLACES],
    // The ports that have each of the flags that decisions ask of all ports.
    flood: Ports,
    mcast_flood: Ports,
    bcast_flood: Ports,
    isolated: Ports,
}

impl Model for FlagTable {
    ghost use Rattle.std.specs.Prelude.{ℕ, List};
    ghost use Rattle.br_model.specs.Table.Domains.{entries_from};
    ghost use Rattle.forward_rules.specs.PortSets.{AreFlagged};

    ghost Value = { List (ℕ × ℕ) };

    ghost view = { λ f. entries_from 0 f.by_port };

    ghost invariant = { λ f. AreFlagged (entries_from 0 f.by_port) f.flood f.mcast_flood f.bcast_flood f.isolated };
}

impl FlagTable {
    /// No port has flags.
    pub fn empty() -> FlagTable
        ensures { result ≡ [] }
    {
        FlagTable {
            by_port: [None; Port::PLACES],
            flood: Ports::empty(),
            mcast_flood: Ports::empty(),
            bcast_flood: Ports::empty(),
            isolated: Ports::empty(),
        }
    }

    /// `None` where the port has no flags.
    pub fn of(&self, port: Port) -> Option<Flags>
        ensures { result ≡ get nat_cmp self.now port }
    {
        self.by_port[usize::from(port.number())]
    }

    pub fn set(&mut self, port: Port, flags: Flags)
        ensures { self.new ≡ put nat_cmp self.old port flags }
    {
        self.place(port, Some(flags));
    }

    /// Leaves the port without flags.
    pub fn clear(&mut self, port: Port)
        ensures { self.new ≡ without nat_cmp self.old port }
    {
        self.place(port, None);
    }

    fn place(&mut self, port: Port, flags: Option<Flags>)
        ensures some { (f : ℕ) → flags ≡ Some f → self.new ≡ put nat_cmp self.old port f }
        ensures none { flags ≡ None → self.new ≡ without nat_cmp self.old port }
    {
        let bits = bits_of(&flags);
        self.by_port[usize::from(port.number())] = flags;
        place_in(&mut self.flood, port, has(bits, Flags::FLOOD));
        place_in(&mut self.mcast_flood, port, has(bits, Flags::MCAST_FLOOD));
        place_in(&mut self.bcast_flood, port, has(bits, Flags::BCAST_FLOOD));
        place_in(&mut self.isolated, port, has(bits, Flags::ISOLATED));
    }

    /// Whether the port has the flag of this place.
    pub fn has_flag(&self, port: Port, place: u8) -> bool
        requires { place < 8 }
        ensures { result ≡ flag_is_set (get nat_cmp self.now port) place }
    {
        has(bits_of(&self.of(port)), place)
    }

    /// The ports with the flag `flood`: unknown unicast goes there (Linux's BR_FLOOD).
    pub fn flood(&self) -> Ports
        ensures { result ≡ flagged self.now flood }
    {
        self.flood
    }

    /// Those with `mcast_flood`: multicast frames that are flooded go there (Linux's BR_MCAST_FLOOD).
    pub fn mcast_flood(&self) -> Ports
        ensures { result ≡ flagged self.now mcast_flood }
    {
        self.mcast_flood
    }

    /// Those with `bcast_flood`: broadcasts go there (Linux's BR_BCAST_FLOOD).
    pub fn bcast_flood(&self) -> Ports
        ensures { result ≡ flagged self.now bcast_flood }
    {
        self.bcast_flood
    }

    /// Those with `isolated`: none sends to another (Linux's BR_ISOLATED).
    pub fn isolated(&self) -> Ports
        ensures { result ≡ flagged self.now isolated }
    {
        self.isolated
    }
}

fn bits_of(flags: &Option<Flags>) -> u8
    ensures { result ≡ unwrap_or flags.now 0 }
{
    match *flags {
        Some(flags) => flags.bits(),
        None => 0,
    }
}

/// Whether the flag of this place is among these.
fn has(bits: u8, place: u8) -> bool
    requires { place < 8 }
    ensures { result ≡ (bits / 2 ^ place % 2 == 1) }
{
    bits >> place & 1 == 1
}
