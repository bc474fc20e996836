//! Priority vectors, the election of the root, and roles (IEEE 802.1D-1998 sections 8.6.2 and 8.6.7 to 8.6.10).
ghost use Rattle.std.specs.Prelude.{◌≡◌, ◌≤◌};
ghost use Rattle.std.specs.Option.{ForSome, option_map_or};
ghost use Rattle.std.specs.List.{filter_map};
ghost use Rattle.std.specs.declared.option.Option.TheVariants.{Some};
ghost use Rattle.std.specs.Ordering.{is_lt, is_le, ord_min};
ghost use Rattle.br_model.specs.Table.Domains.{last_port};
ghost use Rattle.br_model.specs.Tree.Tree.{port_id};
ghost use Rattle.br_model.specs.Tree.Vectors.{vector_cmp, bridge_cmp, vector_of, candidate_cmp, candidate, least, root_by, is_port_of, own_vector, is_designated_by, supersedes};
ghost use Rattle.stp_core.specs.Places.{AreEmptyFrom, entries_at};
ghost use Rattle.stp_core.specs.Acting.{held_by};

use crate::places::{Places, Slots};
use br_model::tree::{Candidate, ConfigMsg, Root, TreePort, Vector};
use std::cmp::Ordering;

/// The bridge's identifier, and the root that its ports elect.
#[derive(Clone, Copy)]
pub(crate) struct Election {
    pub(crate) id: u64,
    pub(crate) root: Root,
}

pub(crate) fn port_id(p: u8, x: &TreePort) -> u16
    ensures { result ≡ port_id (p, x.now) }
{
    256 * u16::from(x.priority) + u16::from(p)
}

pub(crate) fn vector_of(m: &ConfigMsg) -> Vector
    ensures { result ≡ vector_of m.now }
{
    Vector {
        root: m.root,
        cost: m.cost,
        bridge: m.bridge,
        port: m.port,
    }
}

// By root, cost and bridge.
fn compare_bridges(a: &Vector, b: &Vector) -> Ordering
    ensures { result ≡ bridge_cmp a.now b.now }
{
    a.root
        .cmp(&b.root)
        .then(a.cost.cmp(&b.cost))
        .then(a.bridge.cmp(&b.bridge))
}

// By root, cost, bridge and port.
fn compare(a: &Vector, b: &Vector) -> Ordering
    ensures { result ≡ vector_cmp a.now b.now }
{
    compare_bridges(a, b).then(a.port.cmp(&b.port))
}

fn is_lower(a: &Candidate, b: &Candidate) -> bool
    ensures { result ≡ is_lt (candidate_cmp a.now b.now) }
{
    compare(&a.vector, &b.vector).then(a.id.cmp(&b.id)).is_lt()
}

// What a port offers to the bridge of this identifier.
fn candidate(id: u64, p: u8, x: &TreePort) -> Option<Candidate>
    ensures value { result ≡ candidate id (p, x.now) }
    ensures here { ForSome result (λ c. c.port ≡ p) }
{
    match &x.kept {
        None => None,
        Some(k) => {
            if k.message.root < id && k.message.bridge != id {
                Some(Candidate {
                    vector: Vector {
                        cost: k.message.cost.saturating_add(u32::from(x.cost)),
                        ..vector_of(&k.message)
                    },
                    id: port_id(p, x),
                    port: p,
                })
            } else {
                None
            }
        }
    }
}

fn lesser(best: Option<Candidate>, c: Candidate) -> Option<Candidate>
    ensures { result ≡ Some (option_map_or (λ b. ord_min candidate_cmp b c) best c) }
{
    match best {
        None => Some(c),
        Some(b) => { if is_lower(&c, &b) { Some(c) } else { Some(b) } }
    }
}

impl Places {
    /// The root, by the least of what the ports offer.
    pub(crate) fn elect(&self, id: u64) -> Root
        ensures value { result ≡ root_by id (least (filter_map (candidate id) self.now)) }
        ensures last { ForSome result.port (λ p. p ≤ last_port) }
    {
        match best_offer(id, &self.slots, self.used) {
            None => Root {
                id,
                cost: 0,
                port: None,
            },
            Some(c) => Root {
                id: c.vector.root,
                cost: c.vector.cost,
                port: Some(c.port),
            },
        }
    }
}

// The least of what the ports offer.
fn best_offer(id: u64, places: &Slots, used: u8) -> Option<Candidate>
    requires { AreEmptyFrom used places.now }
    ensures value { result ≡ least (filter_map (candidate id) (entries_at 0 places.now)) }
    ensures last { ForSome result (λ c. c.port ≤ last_port) }
{
    let mut best: Option<Candidate> = None;
    for p in 0..used {
        if let Some(x) = &places[usize::from(p)] {
            if let Some(c) = candidate(id, p, x) {
                best = lesser(best, c);
            }
        }
    }
    best
}

fn own_vector(id: u64, root: &Root, p: u8, x: &TreePort) -> Vector
    ensures { result ≡ own_vector id root.now (p, x.now) }
{
    Vector {
        root: root.id,
        cost: root.cost,
        bridge: id,
        port: port_id(p, x),
    }
}

/// Whether the port is the root port.
pub(crate) fn is_root_port(root: &Root, p: u8) -> bool
    ensures { result ≡ is_port_of root.now p }
{
    match root.port {
        Some(port) => port == p,
        None => false,
    }
}

/// Whether the port is designated.
pub(crate) fn is_designated(id: u64, root: &Root, p: u8, x: &TreePort) -> bool
    ensures { result ≡ is_designated_by id root.now (p, x.now) }
{
    !is_root_port(root, p)
        && match &x.kept {
            Some(k) => compare(&own_vector(id, root, p, x), &vector_of(&k.message)).is_le(),
            None => true,
        }
}

// A designated port holds the bridge's own vector, another one what it has kept.
fn held(election: &Election, p: u8, x: &TreePort) -> Vector
    ensures { result ≡ held_by election.now (p, x.now) }
{
    let own = own_vector(election.id, &election.root, p, x);
    if is_designated(election.id, &election.root, p, x) {
        return own;
    }
    match &x.kept {
        Some(k) => vector_of(&k.message),
        None => own,
    }
}

/// Whether the message takes the place of what the port holds.
pub(crate) fn keeps(election: &Election, p: u8, x: &TreePort, m: &ConfigMsg) -> bool
    ensures { result ≡ supersedes election.now.id (vector_of m.now) (held_by election.now (p, x.now)) }
{
    supersedes(election.id, &vector_of(m), &held(election, p, x))
}

// Whether the vector takes the place of the one that is held.
fn supersedes(id: u64, v: &Vector, held: &Vector) -> bool
    ensures { result ≡ supersedes id v.now held.now }
{
    match compare_bridges(v, held) {
        Ordering::Less => true,
        Ordering::Equal => v.bridge != id || v.port <= held.port,
        Ordering::Greater => false,
    }
}
