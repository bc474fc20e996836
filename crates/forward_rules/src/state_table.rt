//! The states of ports.
ghost use Rattle.std.specs.Prelude.{◌≡◌, ℕ, [], Some, None};
ghost use Rattle.std.specs.Ordering.{nat_cmp};
ghost use Rattle.br_model.specs.Forward.Admission.{forwarding};
ghost use Rattle.br_model.specs.Table.Domains.{entries_from};
ghost use Rattle.br_model.specs.Data.Maps.{get, put, without};
ghost use Rattle.forward_rules.specs.PortSets.{ArePorts, state_is, in_state};

use crate::place::place_in;
use br_model::change::FORWARDING;
use br_model::numbers::Port;
use port_sets::Ports;
use std::marker::Model;

/// The state of each port that has one, seen as the list of pairs of a port and its state, ascending by port.
#[derive(Drop)]
pub struct StateTable {
    by_port: [Option<u8>; Port::PLACES],
    // The ports in the state that decisions ask of all ports.
    forwarding: Ports,
}

impl Model for StateTable {
    ghost use Rattle.std.specs.Prelude.{ℕ, List};
    ghost use Rattle.br_model.specs.Table.Domains.{entries_from};
    ghost use Rattle.forward_rules.specs.PortSets.{AreInState};

    ghost Value = { List (ℕ × ℕ) };

    ghost view = { λ s. entries_from 0 s.by_port };

    ghost invariant = { λ s. AreInState (entries_from 0 s.by_port) s.forwarding };
}

impl StateTable {
    /// No port has a state.
    pub fn empty() -> StateTable
        ensures { result ≡ [] }
    {
        StateTable {
            by_port: [None; Port::PLACES],
            forwarding: Ports::empty(),
        }
    }

    /// The state by Linux's number; `None` where the port has none.
    pub fn of(&self, port: Port) -> Option<u8>
        ensures { result ≡ get nat_cmp self.now port }
    {
        self.by_port[usize::from(port.number())]
    }

    /// Puts the port in a state. That Linux numbers it isn't tested.
    pub fn set(&mut self, port: Port, state: u8)
        ensures { self.new ≡ put nat_cmp self.old port state }
    {
        self.place(port, Some(state));
    }

    /// Leaves the port without a state.
    pub fn clear(&mut self, port: Port)
        ensures { self.new ≡ without nat_cmp self.old port }
    {
        self.place(port, None);
    }

    fn place(&mut self, port: Port, state: Option<u8>)
        ensures some { (n : ℕ) → state ≡ Some n → self.new ≡ put nat_cmp self.old port n }
        ensures none { state ≡ None → self.new ≡ without nat_cmp self.old port }
    {
        self.by_port[usize::from(port.number())] = state;
        place_in(&mut self.forwarding, port, state == Some(FORWARDING));
    }

    /// Whether the port is in the state of this number.
    pub fn is_in(&self, port: Port, state: u8) -> bool
        ensures { result ≡ state_is (get nat_cmp self.now port) state }
    {
        self.of(port) == Some(state)
    }

    /// The ports in the state `forwarding`.
    pub fn forwarding(&self) -> Ports
        ensures value { result ≡ in_state self.now forwarding }
        ensures ports { ArePorts result }
    {
        self.forwarding
    }
}
