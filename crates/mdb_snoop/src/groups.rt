//! The members of groups alone.
ghost use Rattle.std.specs.Prelude.{◌≡◌, ◌≤◌, ℕ, IsTrue, IfOk, [], Some, false, length, slice_get};
ghost use Rattle.std.specs.List.Sorted.{IsStrictlySortedBy};
ghost use Rattle.br_model.specs.Table.GroupPairs.{group_pairs, has_room, max_pairs};
ghost use Rattle.br_model.specs.Table.Groups.{membership_cmp};
ghost use Rattle.br_model.specs.declared.group.Group.{Group as GroupValue};
ghost use Rattle.br_model.specs.Data.Maps.{has, joined, parted};
ghost use Rattle.mdb_snoop.specs.Database.{pairs_of_port, ports_in};
ghost use Rattle.mdb_snoop.specs.Places.{has_some};
ghost use Rattle.port_sets.specs.Numbers.{has_number};

use crate::ended::Pairs;
use crate::ends::NoEnds;
use crate::port_counts::PortCounts;
use crate::sections::Section;
use crate::{NoMemory, sections};
use br_model::group::Group;
use br_model::limits::MOST_PAIRS;
use br_model::numbers::{Port, Vid};
use port_sets::Ports;
use std::alloc::Global;
use std::marker::Model;

/// The members of groups in VLANs, without ends. Contracts see the ascending list of the memberships.
#[derive(Drop)]
pub struct Groups {
    sections: Vec<Section<NoEnds>>,
    // Of how many of them each port is a member.
    counts: PortCounts,
}

impl Model for Groups {
    ghost use Rattle.std.specs.Prelude.{◌≤◌, List, vec_capacity};
    ghost use Rattle.br_model.specs.Table.GroupPairs.{max_pairs};
    ghost use Rattle.br_model.specs.Table.Groups.{Membership};
    ghost use Rattle.br_model.specs.Control.Ends.{keys};
    ghost use Rattle.mdb_snoop.specs.Counts.{AreCounts};
    ghost use Rattle.mdb_snoop.specs.Places.{IsSound, flat};

    ghost Value = { List Membership };

    ghost view = { λ g. keys (flat g.sections.items) };

    ghost invariant = { λ g. IsSound g.sections.items × (max_pairs ≤ vec_capacity g.sections)
        × AreCounts g.counts.counts (keys (flat g.sections.items)) };
}

impl Groups {
    /// Takes the memory for all that it can hold.
    pub fn make(alloc: Global) -> Result<Groups, NoMemory>
        ensures { IfOk result (λ g. g ≡ []) }
    {
        Ok(Groups {
            sections: Vec::with_capacity(alloc, MOST_PAIRS)?,
            counts: PortCounts::none(),
        })
    }

    /// Whether a member of the group in the VLAN can be joined: there is one already, or the pair would be no 1,025th.
    pub fn has_room(&self, vid: Vid, group: Group) -> bool
        ensures { result ≡ has_room self.now vid group }
    {
        sections::has_room(&self.sections, &(vid, group))
    }

    pub fn join(&mut self, v: Vid, g: Group, p: Port)
        requires { IsTrue (has_room self.old v g) }
        ensures { self.new ≡ joined membership_cmp self.old (v, g, p) }
    {
        let is_new = !sections::has_member(&self.sections, &(v, g), p);
        self.counts.add(p, is_new);
        sections::join(&mut self.sections, (v, g), p, None);
    }

    /// Whether the port is a member of the group in the VLAN.
    pub fn has(&self, vid: Vid, group: Group, port: Port) -> bool
        ensures { result ≡ has membership_cmp self.now (vid, group, port) }
    {
        sections::has_member(&self.sections, &(vid, group), port)
    }

    /// The groups in VLANs of which the port is a member.
    pub fn of_port(&self, alloc: Global, p: Port) -> Result<Pairs, NoMemory>
        ensures { IfOk result (λ pairs. pairs ≡ pairs_of_port self.now p) }
    {
        let pairs = sections::of_port(alloc, &self.sections, p)?;
        Ok(Pairs::of(pairs))
    }

    /// Says whether it was there.
    pub fn part(&mut self, v: Vid, g: Group, p: Port) -> bool
        ensures there { result ≡ has membership_cmp self.old (v, g, p) }
        ensures members { self.new ≡ parted membership_cmp self.old (v, g, p) }
    {
        let was_there = sections::part(&mut self.sections, &(v, g), p);
        self.counts.remove(p, was_there);
        was_there
    }

    /// The ports that are members of the group in the VLAN.
    pub fn members(&self, v: Vid, g: Group) -> Ports
        ensures { result ≡ ports_in self.now v g }
    {
        sections::ports(&self.sections, &(v, g))
    }

    /// How many pairs of VLAN and group have members.
    pub fn pairs(&self) -> usize
        ensures { result ≡ length (group_pairs self.now) }
    {
        sections::count(&self.sections)
    }

    /// The pair of VLAN and group at a place in their order, if there are so many.
    pub fn pair(&self, place: usize) -> Option<(Vid, Group)>
        ensures { result ≡ slice_get (group_pairs self.now) place }
    {
        sections::key_at(&self.sections, place)
    }

    /// Whether the port is a member of the pair at a place.
    pub fn member_at(&self, place: usize, port: Port) -> bool
        ensures { (v : ℕ) (g : GroupValue) → slice_get (group_pairs self.now) place ≡ Some (v, g) → result ≡ has_number (ports_in self.now v g) port }
    {
        sections::member_at(&self.sections, place, port)
    }

    /// Whether the port is a member of any pair. It looks at none.
    pub fn is_member(&self, port: Port) -> bool
        ensures value { result ≡ has_some (pairs_of_port self.now port) }
        ensures none { result ≡ false → (v : ℕ) (g : GroupValue) → has_number (ports_in self.now v g) port ≡ false }
    {
        self.counts.has(port)
    }

    /// A law, whose body does nothing: the memberships ascend, and there is no 1,025th pair of VLAN and group.
    pub fn members_ascend(&self)
        ensures ascending { IsStrictlySortedBy membership_cmp self.now }
        ensures few { length (group_pairs self.now) ≤ max_pairs }
    {
        // law: the invariant says it
        let _sections = &self.sections;
    }
}
