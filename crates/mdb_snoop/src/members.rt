//! The members of a group in a VLAN.
ghost use Rattle.std.specs.Prelude.{◌≡◌, [], ◌∷◌, IsTrue, is_some};
ghost use Rattle.std.specs.Ordering.{nat_cmp};
ghost use Rattle.br_model.specs.Data.Maps.{get, put, without};
ghost use Rattle.br_model.specs.Control.Ends.{due_members, end_of, keys};
ghost use Rattle.mdb_snoop.specs.Database.{end_joined, ending_soon, is_dynamic, joined_until};
ghost use Rattle.mdb_snoop.specs.Places.{ArePorts, has_some};
ghost use Rattle.mdb_snoop.specs.Soonest.{soonest_member};

use crate::ends::Ends;
use crate::moments::Moments;
use br_model::numbers::Port;
use port_sets::Ports;
use std::marker::Model;

/// The ports, and the ends of those that end.
#[derive(Drop)]
pub struct Members<E: Ends> {
    ports: Ports,
    ends: E,
}

impl<E: Ends> Model for Members<E> {
    ghost use Rattle.std.specs.Prelude.{ℕ, Option, List, map};
    ghost use Rattle.std.specs.Ordering.{nat_cmp};
    ghost use Rattle.br_model.specs.Data.Maps.{get};
    ghost use Rattle.mdb_snoop.specs.Places.{ArePorts};

    ghost Value = { List (ℕ × Option ℕ) };

    ghost view = { λ m. map (λ port. (port, get nat_cmp (E.moments m.ends) port)) m.ports };

    ghost invariant = { λ m. ArePorts m.ports };
}

impl<E: Ends> Members<E> {
    /// One member.
    pub fn of(port: Port, end: Option<u64>) -> Members<E>
        requires { IsTrue (E.keeps end) }
        ensures { result ≡ (port, end) ∷ [] }
    {
        let mut members = Members {
            ports: Ports::empty(),
            ends: E::none(),
        };
        members.join(port, end);
        members
    }

    /// A member without end stays without end.
    pub fn join(&mut self, port: Port, end: Option<u64>)
        requires { IsTrue (E.keeps end) }
        ensures { self.new ≡ joined_until nat_cmp self.old port end }
    {
        let until = self.end_joined(port, end);
        self.put(port, until);
    }

    fn end_joined(&self, port: Port, end: Option<u64>) -> Option<u64>
        ensures { result ≡ end_joined (get nat_cmp self.now port) end }
    {
        if self.has(port) && !self.is_dynamic(port) {
            None
        } else {
            end
        }
    }

    fn put(&mut self, port: Port, end: Option<u64>)
        requires { IsTrue (E.keeps end) }
        ensures { self.new ≡ put nat_cmp self.old port end }
    {
        // law: the members ascend
        self.ports.members_ascend();
        self.ports = self.ports.with(port.number());
        self.ends.set_end(port, end);
    }

    pub fn part(&mut self, port: Port)
        ensures { self.new ≡ without nat_cmp self.old port }
    {
        // law: the members ascend
        self.ports.members_ascend();
        self.ports = self.ports.without(port.number());
        self.ends.set_end(port, None);
    }

    // The end of a member that has one.
    fn end(&self, port: Port) -> Option<u64>
        ensures { result ≡ end_of (get nat_cmp self.now port) }
    {
        if self.ports.has(port.number()) {
            self.ends.end(port)
        } else {
            None
        }
    }

    pub fn has(&self, port: Port) -> bool
        ensures { result ≡ is_some (get nat_cmp self.now port) }
    {
        self.ports.has(port.number())
    }

    /// Whether it is a member that ends.
    pub fn is_dynamic(&self, port: Port) -> bool
        ensures { result ≡ is_dynamic (get nat_cmp self.now port) }
    {
        self.end(port).is_some()
    }

    pub fn ports(&self) -> Ports
        ensures { result ≡ keys self.now }
    {
        self.ports
    }

    /// Whether there is a member but the port.
    pub fn has_other(&self, port: Port) -> bool
        ensures { result ≡ has_some (without nat_cmp self.now port) }
    {
        // law: the members ascend
        self.ports.members_ascend();
        self.ports.without(port.number()).first().is_some()
    }
}

impl Members<Moments> {
    /// The end of a member that ends becomes the smaller one.
    pub fn leave_soon(&mut self, port: Port, end: u64)
        ensures { self.new ≡ ending_soon nat_cmp self.old port end }
    {
        if let Some(old) = self.end(port) {
            self.put(port, Some(old.min(end)));
        }
    }

    pub fn copy(&self) -> Members<Moments>
        ensures { result ≡ self.now }
    {
        Members {
            ports: self.ports,
            ends: self.ends.copy(),
        }
    }

    /// When the first member ends, or `u64::MAX` where none ends.
    pub fn soonest(&self) -> u64
        ensures { result ≡ soonest_member self.now }
    {
        self.ends.soonest_of(self.ports)
    }

    /// The members that end at `now` or before.
    pub fn due(&self, now: u64) -> Ports
        ensures value { result ≡ due_members now self.now }
        ensures ports { ArePorts result }
    {
        // law: the members ascend
        self.ports.members_ascend();
        self.ports.and(self.ends.due(now))
    }
}
