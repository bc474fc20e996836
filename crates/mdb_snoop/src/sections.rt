//! Members by VLAN and group: a list in the order of these keys, which is searched by halves.
ghost use Rattle.std.specs.Prelude.{◌≡◌, ◌+◌, ◌++◌, ◌∷◌, ◌<◌, ◌≤◌, None, Some, true, [], IfOk, IfErr, IsTrue, is_some};
ghost use Rattle.std.specs.Prelude.{length, map, vec_capacity, slice_get};
ghost use Rattle.std.specs.List.{filter, insert};
ghost use Rattle.std.specs.Ordering.{nat_cmp};
ghost use Rattle.br_model.specs.Table.Domains.{last_port};
ghost use Rattle.br_model.specs.Table.GroupPairs.{group_pair_cmp, has_room, max_pairs};
ghost use Rattle.br_model.specs.Table.Groups.{membership_cmp};
ghost use Rattle.br_model.specs.Data.Maps.{get, without, is_ascending};
ghost use Rattle.br_model.specs.Control.Ends.{due_members, keys};
ghost use Rattle.mdb_snoop.specs.Database.{ending_soon, is_dynamic, joined_until, ports_in};
ghost use Rattle.mdb_snoop.specs.Places.{ArePorts, IsAt, IsGap, IsSound, Section as SectionValue, changed_at, flat, section};
ghost use Rattle.mdb_snoop.specs.Soonest.{soonest_member};

use crate::NoMemory;
use crate::ends::{Ends, NoEnds};
use crate::members::Members;
use crate::moments::Moments;
use br_model::group::Group;
use br_model::limits::MOST_PAIRS;
use br_model::numbers::{Port, Vid};
use port_sets::Ports;
use std::alloc::Global;
use std::cmp::Ordering;
use std::mem::size_of;

pub type Key = (Vid, Group);

pub type Section<E> = (Key, Members<E>);

// All that there can be takes less than 2.4 MB.
const _: () = prove!(size_of::<Section<Moments>>() == 2160);

const _: () = prove!(size_of::<Section<NoEnds>>() <= 80);

const _: () = prove!(size_of::<Section<Moments>>() * MOST_PAIRS < 2_400_000);

/// Which of two keys comes first.
fn order(a: &Key, b: &Key) -> Ordering
    ensures { result ≡ group_pair_cmp a.now b.now }
{
    a.cmp(b)
}

/// Where the key is, or where it would go.
fn place_of<E: Ends>(sections: &[Section<E>], key: &Key) -> Result<usize, usize>
    requires { is_ascending group_pair_cmp sections.now ≡ true }
    ensures found { IfOk result (IsAt sections.now key.now) }
    ensures gap { IfErr result (IsGap sections.now key.now) }
{
    let mut low = 0;
    let mut high = sections.len();
    while low < high {
        let middle = low + (high - low) / 2;
        match order(key, &sections[middle].0) {
            Ordering::Less => high = middle,
            Ordering::Greater => low = middle + 1,
            Ordering::Equal => return Ok(middle),
        }
    }
    Err(low)
}

/// Whether the key has members.
pub fn has<E: Ends>(sections: &[Section<E>], key: &Key) -> bool
    requires { is_ascending group_pair_cmp sections.now ≡ true }
    ensures { result ≡ is_some (get group_pair_cmp sections.now key.now) }
{
    match place_of(sections, key) {
        Ok(_) => true,
        Err(_) => false,
    }
}

/// Whether there is room for a member at the key.
pub fn has_room<E: Ends>(sections: &[Section<E>], key: &Key) -> bool
    requires { IsSound sections.now }
    ensures { result ≡ has_room (keys (flat sections.now)) key.now.0 key.now.1 }
{
    has(sections, key) || sections.len() < MOST_PAIRS
}

/// How many keys have members.
pub fn count<E: Ends>(sections: &[Section<E>]) -> usize
    ensures { result ≡ length sections.now }
{
    sections.len()
}

/// The key at a place, if there are so many.
pub fn key_at<E: Ends>(sections: &[Section<E>], place: usize) -> Option<Key>
    ensures { result ≡ slice_get (keys sections.now) place }
{
    match sections.get(place) {
        Some(section) => Some(section.0),
        None => None,
    }
}

/// Whether the port is a member at a place.
pub fn member_at<E: Ends>(sections: &[Section<E>], place: usize, port: Port) -> bool
    ensures { (s : SectionValue) → slice_get sections.now place ≡ Some s → result ≡ is_some (get nat_cmp s.1 port) }
{
    match sections.get(place) {
        Some(section) => section.1.has(port),
        None => false,
    }
}

/// The ports that are members at the key.
pub fn ports<E: Ends>(sections: &[Section<E>], key: &Key) -> Ports
    requires { IsSound sections.now }
    ensures { result ≡ ports_in (keys (flat sections.now)) key.now.0 key.now.1 }
{
    match place_of(sections, key) {
        Ok(place) => sections[place].1.ports(),
        Err(_) => Ports::empty(),
    }
}

/// Whether the port is a member at the key, and ends.
pub fn is_dynamic<E: Ends>(sections: &[Section<E>], key: &Key, port: Port) -> bool
    requires { IsSound sections.now }
    ensures { result ≡ is_dynamic (get membership_cmp (flat sections.now) (key.now.0, key.now.1, port)) }
{
    match place_of(sections, key) {
        Ok(place) => sections[place].1.is_dynamic(port),
        Err(_) => false,
    }
}

/// Whether the port is a member at the key.
pub fn has_member<E: Ends>(sections: &[Section<E>], key: &Key, port: Port) -> bool
    requires { IsSound sections.now }
    ensures { result ≡ is_some (get membership_cmp (flat sections.now) (key.now.0, key.now.1, port)) }
{
    match place_of(sections, key) {
        Ok(place) => sections[place].1.has(port),
        Err(_) => false,
    }
}

/// Takes the memory for all sections that there can be.
pub fn copy(alloc: Global, sections: &[Section<Moments>]) -> Result<Vec<Section<Moments>>, NoMemory>
    requires { length sections.now ≤ max_pairs }
    ensures items { IfOk result (λ v. v.items ≡ sections.now) }
    ensures capacity { IfOk result (λ v. max_pairs ≤ vec_capacity v) }
{
    let mut copies = Vec::with_capacity(alloc, MOST_PAIRS)?;
    for section in sections {
        copies.push((section.0, section.1.copy()))?;
    }
    Ok(copies)
}

/// When the first member ends, or `u64::MAX` where none ends.
pub fn soonest(sections: &[Section<Moments>]) -> u64
    ensures { result ≡ soonest_member (flat sections.now) }
{
    let mut soonest = u64::MAX;
    for section in sections {
        soonest = soonest.min(section.1.soonest());
    }
    soonest
}

/// Joins the port at the key, within the capacity.
pub fn join<E: Ends>(sections: &mut Vec<Section<E>>, key: Key, port: Port, end: Option<u64>)
    requires sound { IsSound sections.old.items }
    requires room { get group_pair_cmp sections.old.items key ≡ None → length sections.old.items < max_pairs }
    requires capacity { max_pairs ≤ vec_capacity sections.old }
    requires end { IsTrue (E.keeps end) }
    ensures members { flat sections.new.items ≡ joined_until membership_cmp (flat sections.old.items) (key.0, key.1, port) end }
    ensures sound { IsSound sections.new.items }
    ensures capacity { max_pairs ≤ vec_capacity sections.new }
{
    match place_of(sections, &key) {
        Ok(place) => join_at(sections, place, port, end),
        Err(place) => insert_at(sections, place, (key, Members::of(port, end))),
    }
}

fn join_at<E: Ends>(sections: &mut Vec<Section<E>>, place: usize, port: Port, end: Option<u64>)
    requires within { place < length sections.old.items }
    requires end { IsTrue (E.keeps end) }
    ensures items { (d : SectionValue) → sections.new.items ≡ changed_at sections.old.items place (λ ms. joined_until nat_cmp ms port end) d }
    ensures capacity { vec_capacity sections.new ≡ vec_capacity sections.old }
{
    sections[place].1.join(port, end);
}

/// Inserts within the capacity.
fn insert_at<E: Ends>(sections: &mut Vec<Section<E>>, place: usize, section: Section<E>)
    requires within { place ≤ length sections.old.items }
    requires room { length sections.old.items < vec_capacity sections.old }
    ensures items { sections.new.items ≡ insert sections.old.items place section }
    ensures capacity { vec_capacity sections.old ≤ vec_capacity sections.new }
{
    match sections.insert(place, section) {
        Ok(()) => {}
        Err(_) => unreachable!(),
    }
}

/// Takes the member out, and says whether it was there.
pub fn part<E: Ends>(sections: &mut Vec<Section<E>>, key: &Key, port: Port) -> bool
    requires sound { IsSound sections.old.items }
    ensures there { result ≡ is_some (get membership_cmp (flat sections.old.items) (key.now.0, key.now.1, port)) }
    ensures members { flat sections.new.items ≡ without membership_cmp (flat sections.old.items) (key.now.0, key.now.1, port) }
    ensures sound { IsSound sections.new.items }
    ensures capacity { vec_capacity sections.old ≤ vec_capacity sections.new }
{
    match place_of(sections, key) {
        Ok(place) => {
            let there = sections[place].1.has(port);
            if sections[place].1.has_other(port) {
                part_at(sections, place, port);
            } else {
                let _ = sections.remove(place);
            }
            there
        }
        Err(_) => false,
    }
}

fn part_at<E: Ends>(sections: &mut Vec<Section<E>>, place: usize, port: Port)
    requires { place < length sections.old.items }
    ensures items { (d : SectionValue) → sections.new.items ≡ changed_at sections.old.items place (λ ms. without nat_cmp ms port) d }
    ensures capacity { vec_capacity sections.new ≡ vec_capacity sections.old }
{
    sections[place].1.part(port);
}

/// The end of a member that ends becomes the smaller one.
pub fn leave_soon(sections: &mut Vec<Section<Moments>>, key: &Key, port: Port, end: u64)
    requires sound { IsSound sections.old.items }
    ensures members { flat sections.new.items ≡ ending_soon membership_cmp (flat sections.old.items) (key.now.0, key.now.1, port) end }
    ensures sound { IsSound sections.new.items }
    ensures capacity { vec_capacity sections.old ≤ vec_capacity sections.new }
{
    match place_of(sections, key) {
        Ok(place) => leave_soon_at(sections, place, port, end),
        Err(_) => {}
    }
}

fn leave_soon_at(sections: &mut Vec<Section<Moments>>, place: usize, port: Port, end: u64)
    requires { place < length sections.old.items }
    ensures items { (d : SectionValue) → sections.new.items ≡ changed_at sections.old.items place (λ ms. ending_soon nat_cmp ms port end) d }
    ensures capacity { vec_capacity sections.new ≡ vec_capacity sections.old }
{
    sections[place].1.leave_soon(port, end);
}

/// The keys at which the port is a member.
pub fn of_port<E: Ends>(
    alloc: Global,
    sections: &[Section<E>],
    port: Port,
) -> Result<Vec<Key>, NoMemory>
    ensures { IfOk result (λ v. v.items ≡ keys (filter (λ s. is_some (get nat_cmp s.1 port)) sections.now)) }
{
    sections
        .iter()
        .filter(|s| s.1.has(port))
        .map(|s| s.0)
        .collect(alloc)
}

/// The members that end at `now` or before.
pub fn expired(
    alloc: Global,
    sections: &[Section<Moments>],
    now: u64,
) -> Result<Vec<(Vid, Group, Port)>, NoMemory>
    ensures { IfOk result (λ v. v.items ≡ due_members now (flat sections.now)) }
{
    let mut ended = Vec::new(alloc);
    for i in 0..sections.len() {
        push_section(&mut ended, &sections[i], now)?;
    }
    Ok(ended)
}

/// Adds the members of a section that end at `now` or before.
fn push_section(
    out: &mut Vec<(Vid, Group, Port)>,
    members: &Section<Moments>,
    now: u64,
) -> Result<(), NoMemory>
    ensures { IfOk result (λ _. out.new.items ≡ out.old.items ++ due_members now (section members.now.0 members.now.1)) }
{
    let (vid, group) = members.0;
    push_all(out, vid, group, members.1.due(now))?;
    Ok(())
}

/// Adds a membership for each of the ports.
fn push_all(
    out: &mut Vec<(Vid, Group, Port)>,
    vid: Vid,
    group: Group,
    ports: Ports,
) -> Result<(), NoMemory>
    requires { ArePorts ports }
    ensures { IfOk result (λ _. out.new.items ≡ out.old.items ++ map (λ port. (vid, group, port)) ports) }
{
    for number in ports.iter() {
        push_member(out, vid, group, number)?;
    }
    Ok(())
}

/// Adds the membership of the port of this number.
fn push_member(
    out: &mut Vec<(Vid, Group, Port)>,
    vid: Vid,
    group: Group,
    number: u8,
) -> Result<(), NoMemory>
    requires { number ≤ last_port }
    ensures { IfOk result (λ _. out.new.items ≡ out.old.items ++ (vid, group, number) ∷ []) }
{
    let Some(port) = Port::new(number) else {
        unreachable!()
    };
    out.push((vid, group, port))?;
    Ok(())
}
