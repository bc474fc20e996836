//! The multicast database.
ghost use Rattle.std.specs.Prelude.{◌≡◌, ◌+◌, ◌≤◌, min, ℕ, IsTrue, IfOk, None, Some, [], false, true, is_some, length, not, slice_get};
ghost use Rattle.std.specs.List.{All};
ghost use Rattle.std.specs.Ordering.{nat_cmp};
ghost use Rattle.br_model.specs.Table.Domains.{last_port};
ghost use Rattle.br_model.specs.Table.GroupPairs.{group_pairs, has_room};
ghost use Rattle.br_model.specs.Table.Groups.{membership_cmp};
ghost use Rattle.br_model.specs.Data.Maps.{get, has, put, without, joined, parted};
ghost use Rattle.br_model.specs.Table.Table.{Table, ip_version, switched};
ghost use Rattle.br_model.specs.Forward.Targets.{members_of, knows_querier};
ghost use Rattle.br_model.specs.Control.Ends.{due, due_members, end_of, is_over, keys, lasts, no_ends, parts, queries, querier_time, routes};
ghost use Rattle.mdb_snoop.specs.Database.{ending_soon, joined_until, memberships, pairs_of_port, ports_in, versions};
ghost use Rattle.mdb_snoop.specs.Soonest.{first_end, moment_of};

use crate::ended::{Ended, Memberships, Pairs};
use crate::moments::Moments;
use crate::sections::Section;
use crate::{NoMemory, sections};
use br_model::group::Group;
use br_model::limits::MOST_PAIRS;
use br_model::numbers::{Port, Vid};
use port_sets::Ports;
use std::alloc::Global;
use std::marker::Model;

/// Members of groups, router ports and queriers, with their ends in milliseconds.
#[derive(Drop)]
pub struct Mdb {
    sections: Vec<Section<Moments>>,
    routers: Moments,
    four: Option<u64>,
    six: Option<u64>,
    // Nothing ends before.
    soonest: u64,
}

impl Model for Mdb {
    ghost use Rattle.std.specs.Prelude.{◌≤◌, vec_capacity};
    ghost use Rattle.br_model.specs.Table.GroupPairs.{max_pairs};
    ghost use Rattle.br_model.specs.Control.Ends.{Ends};
    ghost use Rattle.mdb_snoop.specs.Places.{IsSound, flat, queriers_of};
    ghost use Rattle.mdb_snoop.specs.Soonest.{first_end};

    ghost Value = { Ends };

    ghost view = { λ m. record { groups = flat m.sections.items; routers = m.routers; queriers = queriers_of m.four m.six } };

    ghost invariant = { λ m. IsSound m.sections.items × (max_pairs ≤ vec_capacity m.sections)
        × (m.soonest ≤ first_end (record { groups = flat m.sections.items; routers = m.routers; queriers = queriers_of m.four m.six })) };
}

impl Mdb {
    /// Takes the memory for all that it can hold.
    pub fn make(alloc: Global) -> Result<Mdb, NoMemory>
        ensures { IfOk result (λ m. m ≡ no_ends) }
    {
        Ok(Mdb {
            sections: Vec::with_capacity(alloc, MOST_PAIRS)?,
            routers: Moments::empty(),
            four: None,
            six: None,
            soonest: u64::MAX,
        })
    }

    /// Takes the memory for all that it can hold, too.
    pub fn copy(&self, alloc: Global) -> Result<Mdb, NoMemory>
        ensures { IfOk result (λ m. m ≡ self.now) }
    {
        Ok(Mdb {
            sections: sections::copy(alloc, &self.sections)?,
            routers: self.routers.copy(),
            four: self.four,
            six: self.six,
            soonest: self.soonest,
        })
    }

    /// Whether a member of the group in the VLAN can be joined: there is one already, or the pair would be no 1,025th.
    pub fn has_room(&self, vid: Vid, group: Group) -> bool
        ensures { result ≡ has_room (memberships self.now) vid group }
    {
        sections::has_room(&self.sections, &(vid, group))
    }

    /// Whether the port is a member of the group in the VLAN, with or without end.
    pub fn has(&self, vid: Vid, group: Group, port: Port) -> bool
        ensures { result ≡ has membership_cmp (memberships self.now) (vid, group, port) }
    {
        sections::has_member(&self.sections, &(vid, group), port)
    }

    /// Joins the port until `end`, or without end, as a command does it. A membership that is there gets this end, but
    /// one without end keeps none.
    pub fn join(&mut self, v: Vid, g: Group, p: Port, end: Option<u64>)
        requires { IsTrue (has_room (memberships self.old) v g) }
        ensures groups { self.new ≡ record self.old { groups = joined_until membership_cmp self.old.groups (v, g, p) end } }
        ensures memberships { memberships self.new ≡ joined membership_cmp (memberships self.old) (v, g, p) }
        ensures endless { end ≡ None → self.new ≡ lasts self.old (v, g, p) None }
        ensures made { (moment : ℕ) → end ≡ Some moment → has membership_cmp (memberships self.old) (v, g, p) ≡ false
            → self.new ≡ lasts (lasts self.old (v, g, p) None) (v, g, p) (Some moment) }
        ensures renewed { (moment last : ℕ) → end ≡ Some moment → end_of (get membership_cmp self.old.groups (v, g, p)) ≡ Some last
            → self.new ≡ lasts self.old (v, g, p) (Some moment) }
    {
        self.soonest = self.soonest.min(moment_of(end));
        sections::join(&mut self.sections, (v, g), p, end);
    }

    /// Takes the membership out, with or without end, and says whether it was there.
    pub fn part(&mut self, v: Vid, g: Group, p: Port) -> bool
        ensures there { result ≡ has membership_cmp (memberships self.old) (v, g, p) }
        ensures groups { self.new ≡ parts self.old (v, g, p) }
        ensures memberships { memberships self.new ≡ parted membership_cmp (memberships self.old) (v, g, p) }
    {
        sections::part(&mut self.sections, &(v, g), p)
    }

    /// Lets a membership that ends do so at `end`, where that is sooner.
    pub fn leave_soon(&mut self, v: Vid, g: Group, p: Port, end: u64)
        ensures groups { self.new ≡ record self.old { groups = ending_soon membership_cmp self.old.groups (v, g, p) end } }
        ensures memberships { memberships self.new ≡ memberships self.old }
        ensures ending { (last : ℕ) → end_of (get membership_cmp self.old.groups (v, g, p)) ≡ Some last
            → self.new ≡ lasts self.old (v, g, p) (Some (min last end)) }
        ensures endless { end_of (get membership_cmp self.old.groups (v, g, p)) ≡ None → self.new ≡ self.old }
    {
        self.soonest = self.soonest.min(end);
        sections::leave_soon(&mut self.sections, &(v, g), p, end);
    }

    /// Whether a membership that ends is there.
    pub fn dynamic(&self, v: Vid, g: Group, p: Port) -> bool
        ensures { result ≡ is_some (end_of (get membership_cmp self.now.groups (v, g, p))) }
    {
        sections::is_dynamic(&self.sections, &(v, g), p)
    }

    /// Lets the router at the port end at `end`, and says whether there was none.
    pub fn router_seen(&mut self, p: Port, end: u64) -> bool
        ensures seen { result ≡ not (has nat_cmp (keys self.old.routers) p) }
        ensures routers { self.new ≡ record self.old { routers = put nat_cmp self.old.routers p end } }
        ensures ports { keys self.new.routers ≡ switched true (keys self.old.routers) p }
        ensures heard { (now : ℕ) → end ≡ now + querier_time → self.new ≡ routes true self.old now p }
    {
        let there = self.routers.get(p).is_some();
        self.soonest = self.soonest.min(end);
        self.routers.set(p, end);
        !there
    }

    /// Says whether there was one.
    pub fn router_gone(&mut self, p: Port) -> bool
        ensures there { result ≡ has nat_cmp (keys self.old.routers) p }
        ensures routers { self.new ≡ record self.old { routers = without nat_cmp self.old.routers p } }
        ensures ports { keys self.new.routers ≡ switched false (keys self.old.routers) p }
    {
        let there = self.routers.get(p).is_some();
        self.routers.clear(p);
        there
    }

    /// Lets the querier of IP version 4 or 6 end at `end`, and says whether there was none.
    pub fn querier_seen(&mut self, six: bool, end: u64) -> bool
        ensures seen { result ≡ not (has nat_cmp (keys self.old.queriers) (ip_version six)) }
        ensures queriers { self.new ≡ record self.old { queriers = put nat_cmp self.old.queriers (ip_version six) end } }
        ensures versions { keys self.new.queriers ≡ switched true (keys self.old.queriers) (ip_version six) }
        ensures heard { (now : ℕ) → end ≡ now + querier_time → self.new ≡ queries true self.old now six }
    {
        let is_new = !self.querier(six);
        self.soonest = self.soonest.min(end);
        if six {
            self.six = Some(end);
        } else {
            self.four = Some(end);
        }
        is_new
    }

    /// Says whether there was one.
    pub fn querier_gone(&mut self, six: bool) -> bool
        ensures there { result ≡ has nat_cmp (keys self.old.queriers) (ip_version six) }
        ensures queriers { self.new ≡ record self.old { queriers = without nat_cmp self.old.queriers (ip_version six) } }
        ensures versions { keys self.new.queriers ≡ switched false (keys self.old.queriers) (ip_version six) }
    {
        let there = self.querier(six);
        if six {
            self.six = None;
        } else {
            self.four = None;
        }
        there
    }

    /// The groups in VLANs of which the port is a member.
    pub fn of_port(&self, alloc: Global, p: Port) -> Result<Pairs, NoMemory>
        ensures { IfOk result (λ pairs. pairs ≡ pairs_of_port (memberships self.now) p) }
    {
        let pairs = sections::of_port(alloc, &self.sections, p)?;
        Ok(Pairs::of(pairs))
    }

    /// Whether something may end at `now` or before. It looks at none.
    pub fn may_end(&self, now: u64) -> bool
        ensures groups { result ≡ false → due_members now self.now.groups ≡ [] }
        ensures routers { result ≡ false → due now self.now.routers ≡ [] }
        ensures queriers { result ≡ false → due now self.now.queriers ≡ [] }
    {
        self.soonest <= now
    }

    /// Lets `may_end` say no until something ends. It looks at each end.
    pub fn settle(&mut self)
        ensures { self.new ≡ self.old }
    {
        self.soonest = self.first_end();
    }

    /// When the first of all ends, or `u64::MAX` where none does.
    fn first_end(&self) -> u64
        ensures { result ≡ first_end self.now }
    {
        let members = sections::soonest(&self.sections);
        let queriers = moment_of(self.four).min(moment_of(self.six));
        members.min(self.routers.soonest().min(queriers))
    }

    /// What ends at `now` or before. Nothing is removed. Where nothing may end, it looks at none.
    pub fn expire(&self, alloc: Global, now: u64) -> Result<Ended, NoMemory>
        ensures groups { IfOk result (λ e. e.groups ≡ due_members now self.now.groups) }
        ensures routers { IfOk result (λ e. e.routers ≡ due now self.now.routers) }
        ensures ports { IfOk result (λ e. All (λ n. n ≤ last_port) e.routers) }
        ensures four { IfOk result (λ e. e.four ≡ has nat_cmp (due now self.now.queriers) (ip_version false)) }
        ensures six { IfOk result (λ e. e.six ≡ has nat_cmp (due now self.now.queriers) (ip_version true)) }
        ensures queriers { IfOk result (λ e. due now self.now.queriers ≡ versions e.four e.six) }
    {
        if !self.may_end(now) {
            return Ok(Ended::nothing(alloc));
        }
        let groups = Memberships::of(sections::expired(alloc, &self.sections, now)?);
        Ok(Ended {
            groups,
            routers: self.routers.due(now),
            four: is_over(self.four, now),
            six: is_over(self.six, now),
        })
    }

    /// The ports that are members of the group in the VLAN.
    pub fn members(&self, v: Vid, g: Group) -> Ports
        ensures value { result ≡ ports_in (memberships self.now) v g }
        ensures table { (t : Table) → t.groups ≡ memberships self.now → result ≡ members_of t v g }
    {
        sections::ports(&self.sections, &(v, g))
    }

    /// The ports behind which a multicast router is.
    pub fn routers(&self) -> Ports
        ensures { result ≡ keys self.now.routers }
    {
        self.routers.ports()
    }

    /// Whether a querier of IP version 4 or 6 is known.
    pub fn querier(&self, six: bool) -> bool
        ensures value { result ≡ has nat_cmp (keys self.now.queriers) (ip_version six) }
        ensures table { (t : Table) → t.queriers ≡ keys self.now.queriers → result ≡ knows_querier t six }
    {
        if six {
            self.six.is_some()
        } else {
            self.four.is_some()
        }
    }

    /// The pair of VLAN and group at a place in their order, if there are so many.
    pub fn pair(&self, place: usize) -> Option<(Vid, Group)>
        ensures { result ≡ slice_get (group_pairs (memberships self.now)) place }
    {
        sections::key_at(&self.sections, place)
    }

    /// How many pairs of VLAN and group have members.
    pub fn pairs(&self) -> usize
        ensures { result ≡ length (group_pairs (memberships self.now)) }
    {
        sections::count(&self.sections)
    }
}

/// The end, or `u64::MAX` where there is none.
fn moment_of(end: Option<u64>) -> u64
    ensures { result ≡ moment_of end }
{
    end.unwrap_or(u64::MAX)
}

/// Whether there is an end, at `now` or before.
fn is_over(end: Option<u64>, now: u64) -> bool
    ensures { result ≡ is_over now end }
{
    match end {
        Some(end) => end <= now,
        None => false,
    }
}
