//! Ports with a moment each.
ghost use Rattle.std.specs.Prelude.{◌≡◌, ◌<◌, ◌==◌, ◌||◌, ℕ, [], cond, map, nat_le, refl, slice_index, slice_set, true};
ghost use Rattle.std.specs.Ordering.{nat_cmp};
ghost use Rattle.br_model.specs.Table.Domains.{port_places};
ghost use Rattle.br_model.specs.Data.Maps.{get, put, without};
ghost use Rattle.br_model.specs.Control.Ends.{due, is_over, keys};
ghost use Rattle.mdb_snoop.specs.Places.{ArePorts};
ghost use Rattle.mdb_snoop.specs.Soonest.{moment_of, soonest_member, soonest_moment};
ghost use Rattle.port_sets.specs.Numbers.{has_number, numbers_below};

use crate::ends::Ends;
use br_model::numbers::Port;
use port_sets::Ports;
use std::marker::Model;

/// A finite map from ports to moments in milliseconds.
#[derive(Drop)]
pub struct Moments {
    ports: Ports,
    moments: [u64; Port::PLACES],
}

impl Model for Moments {
    ghost use Rattle.std.specs.Prelude.{ℕ, List, map, slice_index};
    ghost use Rattle.mdb_snoop.specs.Places.{ArePorts};

    ghost Value = { List (ℕ × ℕ) };

    ghost view = { λ m. map (λ port. (port, slice_index m.moments port)) m.ports };

    ghost invariant = { λ m. ArePorts m.ports };
}

impl Moments {
    pub fn empty() -> Moments
        ensures { result ≡ [] }
    {
        Moments {
            ports: Ports::empty(),
            moments: [0; Port::PLACES],
        }
    }

    pub fn get(&self, port: Port) -> Option<u64>
        ensures { result ≡ get nat_cmp self.now port }
    {
        if self.ports.has(port.number()) {
            Some(self.moments[usize::from(port.number())])
        } else {
            None
        }
    }

    /// Puts the moment at the port.
    pub fn set(&mut self, port: Port, moment: u64)
        ensures { self.new ≡ put nat_cmp self.old port moment }
    {
        // law: the members ascend
        self.ports.members_ascend();
        self.ports = self.ports.with(port.number());
        write(&mut self.moments, port, moment);
    }

    pub fn clear(&mut self, port: Port)
        ensures { self.new ≡ without nat_cmp self.old port }
    {
        // law: the members ascend
        self.ports.members_ascend();
        self.ports = self.ports.without(port.number());
    }

    pub fn ports(&self) -> Ports
        ensures { result ≡ keys self.now }
    {
        self.ports
    }

    pub fn copy(&self) -> Moments
        ensures { result ≡ self.now }
    {
        Moments {
            ports: self.ports,
            moments: self.moments,
        }
    }

    /// The least of the moments, or `u64::MAX` where there is none.
    pub fn soonest(&self) -> u64
        ensures { result ≡ soonest_moment self.now }
    {
        let mut soonest = u64::MAX;
        for port in self.ports.iter() {
            soonest = soonest.min(self.moments[usize::from(port)]);
        }
        soonest
    }

    /// The least of the moments of these ports, or `u64::MAX` where they have none.
    pub fn soonest_of(&self, ports: Ports) -> u64
        ensures { result ≡ soonest_member (map (λ port. (port, get nat_cmp self.now port)) ports) }
    {
        let mut soonest = u64::MAX;
        for port in ports.iter() {
            soonest = soonest.min(self.moment_of(port));
        }
        soonest
    }

    /// The moment of the port, or `u64::MAX` where it has none.
    fn moment_of(&self, port: u8) -> u64
        requires { port < port_places }
        ensures { result ≡ moment_of (get nat_cmp self.now port) }
    {
        if self.ports.has(port) {
            self.moments[usize::from(port)]
        } else {
            u64::MAX
        }
    }

    /// The ports whose moment is `now` or before.
    pub fn due(&self, now: u64) -> Ports
        ensures value { result ≡ due now self.now }
        ensures members { (n : ℕ) → has_number result n ≡ is_over now (get nat_cmp self.now n) }
        ensures ports { ArePorts result }
    {
        // law: the members ascend
        self.ports.members_ascend();
        let mut due = Ports::empty();
        for port in self.ports.iter() {
            due = with_due(due, port, self.moments[usize::from(port)], now);
        }
        due
    }
}

impl Ends for Moments {
    ghost moments = { λ m. m };

    ghost keeps = { λ end. true };

    ghost lasts = { refl };

    fn none() -> Moments {
        Moments::empty()
    }

    fn end(&self, port: Port) -> Option<u64> {
        self.get(port)
    }

    fn set_end(&mut self, port: Port, end: Option<u64>) {
        match end {
            Some(moment) => self.set(port, moment),
            None => self.clear(port),
        }
    }
}

/// The set, and the number where its moment is `now` or before.
fn with_due(due: Ports, number: u8, moment: u64, now: u64) -> Ports
    requires { number < port_places }
    ensures { result ≡ cond (nat_le moment now) (numbers_below port_places (λ m. (m == number) || has_number due m)) due }
{
    if moment <= now { due.with(number) } else { due }
}

fn write(moments: &mut [u64; Port::PLACES], port: Port, moment: u64)
    ensures { moments.new ≡ slice_set moments.old port moment }
{
    moments[usize::from(port.number())] = moment;
}
