//! The domains of the declared ports, and the edition of the profile.
ghost use Rattle.std.specs.Prelude.{◌≡◌, ◌≢◌, ◌==◌, ◌≤◌, ℕ, not, ◌&&◌, [], ◌∷◌, if◌then◌else◌, get_or, map, slice_index_or, None, Some};
ghost use Rattle.std.specs.List.{list_any};
ghost use Rattle.std.specs.Ordering.{nat_cmp};
ghost use Rattle.br_model.specs.declared.domains.Edition.TheVariants.{One};
ghost use Rattle.br_model.specs.Table.Change.{groups_deferred};
ghost use Rattle.br_model.specs.Table.Domains.{domain_of, entries_from, has_chip, host, last_chip, port_places};
ghost use Rattle.br_model.specs.Table.DomainPorts.{ports_in};
ghost use Rattle.br_model.specs.Data.Maps.{put};
ghost use Rattle.port_sets.specs.Numbers.{has_number, numbers_below};

use crate::numbers::{Dom, Port};
use port_sets::Ports;
use std::marker::Model;

/// Which changes reach a chip through its queue.
#[derive(Clone, Copy, PartialEq, Eq, Debug)]
pub enum Edition {
    /// Those of addresses.
    One,
    /// Those of addresses and of the members of groups.
    Two,
}

impl Edition {
    /// Whether changes of the members of groups reach a chip through its queue.
    pub fn defers_groups(self) -> bool
        ensures { result ≡ groups_deferred self }
    {
        match self {
            Edition::One => false,
            Edition::Two => true,
        }
    }
}

/// The domain of each declared port, seen as the list of pairs of a port and its domain, ascending by port, and the edition.
/// The host is always there, in the software's domain.
#[derive(Drop)]
pub struct Domains {
    edition: Edition,
    by_port: [Option<Dom>; Port::PLACES],
    // The ports of each domain.
    members: [Ports; Dom::PLACES],
}

impl Model for Domains {
    ghost use Rattle.std.specs.Prelude.{◌≡◌, ℕ, ◌≤◌, [], Some, None, get_or, slice_index_or};
    ghost use Rattle.br_model.specs.Table.Domains.{Domains, entries_from, last_chip};
    ghost use Rattle.br_model.specs.Table.DomainPorts.{ports_in};

    ghost Value = { Domains };

    ghost view = { λ d. record { edition = d.edition; ports = entries_from 0 d.by_port } };

    ghost invariant = { λ d. (get_or d.by_port 0 None ≡ Some 0)
        × ((domain : ℕ) → domain ≤ last_chip
        → slice_index_or d.members domain [] ≡ ports_in (record { edition = d.edition; ports = entries_from 0 d.by_port }) domain) };
}

impl Domains {
    /// No port is declared but the host. The edition is One.
    pub fn make() -> Domains
        ensures { result ≡ record { edition = One; ports = (host, 0) ∷ [] } }
    {
        let mut members = [Ports::empty(); Dom::PLACES];
        move_port(&mut members, Port::HOST, Dom::SOFTWARE);
        Domains {
            edition: Edition::One,
            by_port: host_alone(),
            members,
        }
    }

    /// The same ports, in this edition.
    pub fn with_edition(mut self, e: Edition) -> Domains
        ensures { result ≡ record self { edition = e } }
    {
        self.edition = e;
        self
    }

    pub fn edition(&self) -> Edition
        ensures { result ≡ self.now.edition }
    {
        self.edition
    }

    /// Declares the port in this domain, in place of the one that it may have.
    pub fn set(&mut self, p: Port, d: Dom)
        requires { p ≢ host }
        ensures { self.new ≡ record self.old { ports = put nat_cmp self.old.ports p d } }
    {
        move_port(&mut self.members, p, d);
        self.by_port[usize::from(p.number())] = Some(d);
    }

    /// The same ports in the same domains, in the same edition.
    pub fn again(&self) -> Domains
        ensures { result ≡ self.now }
    {
        Domains {
            edition: self.edition,
            by_port: copy_of(&self.by_port),
            members: self.members,
        }
    }

    /// `None` exactly where the port isn't declared.
    pub fn of(&self, p: Port) -> Option<Dom>
        ensures value { result ≡ domain_of self.now p }
        ensures host { p ≡ host → result ≡ Some 0 }
    {
        self.by_port[usize::from(p.number())]
    }

    /// Whether the domain has a chip.
    pub fn has_chip(&self, dom: Dom) -> bool
        ensures { result ≡ has_chip self.now dom }
    {
        // law: the number is in range
        let _number = dom.number();
        dom == Dom::CHIP || (dom != Dom::SOFTWARE && is_declared(&self.by_port, dom))
    }

    /// The ports of the domain.
    pub fn ports_of(&self, dom: Dom) -> Ports
        ensures { result ≡ ports_in self.now dom }
    {
        self.members[usize::from(dom.number())]
    }
}

/// Whether a port is declared on the domain.
fn is_declared(places: &[Option<Dom>; Port::PLACES], d: Dom) -> bool
    ensures { (n : ℕ) → result ≡ list_any (λ e. e == d) (map (λ e. e.1) (entries_from n places.now)) }
{
    places.contains(&Some(d))
}

fn copy_of(places: &[Option<Dom>; Port::PLACES]) -> [Option<Dom>; Port::PLACES]
    ensures { result ≡ places.now }
{
    let mut copy = [None; Port::PLACES];
    for i in 0..Port::PLACES {
        copy[i] = places[i];
    }
    copy
}

fn host_alone() -> [Option<Dom>; Port::PLACES]
    ensures domains { entries_from 0 result ≡ (host, 0) ∷ [] }
    ensures host { get_or result 0 None ≡ Some 0 }
{
    let mut by_port = [None; Port::PLACES];
    by_port[0] = Some(Dom::SOFTWARE);
    by_port
}

/// Makes the port a member of this domain, and of no other one.
fn move_port(members: &mut [Ports; Dom::PLACES], p: Port, d: Dom)
    ensures { (domain : ℕ) → domain ≤ last_chip
        → slice_index_or members.new domain []
        ≡ numbers_below port_places (λ q. if q == p then d == domain else has_number (slice_index_or members.old domain []) q) }
{
    remove_port(members, p);
    let place = usize::from(d.number());
    members[place] = members[place].with(p.number());
}

fn remove_port(members: &mut [Ports; Dom::PLACES], p: Port)
    ensures { (domain : ℕ) → domain ≤ last_chip
        → slice_index_or members.new domain [] ≡ numbers_below port_places (λ q. has_number (slice_index_or members.old domain []) q && not (q == p)) }
{
    for domain in 0..Dom::PLACES {
        members[domain] = members[domain].without(p.number());
    }
}
