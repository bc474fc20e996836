//! Ports in an array with a place for each, and passes over those that are up.
ghost use Rattle.std.specs.Prelude.{◌≡◌, ◌<◌, ◌≤◌, ◌==◌, [], ℕ, Bool, get_or, if◌then◌else◌};
ghost use Rattle.std.specs.Ordering.{nat_cmp};
ghost use Rattle.br_model.specs.Data.Maps.{get, put, without};
ghost use Rattle.std.specs.List.{All, filter, list_any};
ghost use Rattle.br_model.specs.Table.Domains.{last_port, port_places};
ghost use Rattle.br_model.specs.declared.tree.TreePort.{TreePort as PortValue};
ghost use Rattle.br_model.specs.Tree.Tree.{each, numbers};
ghost use Rattle.br_model.specs.Table.Table.{disabled};
ghost use Rattle.stp_core.specs.Places.{AreEmptyFrom, entries_at};
ghost use Rattle.stp_core.specs.Settling.{state_in};

use br_model::numbers::Port;
use br_model::tree::TreePort;
use port_sets::Ports;
use std::marker::Model;

/// What is kept of each port, by its number; `None` where it isn't up.
pub(crate) type Slots = [Option<TreePort>; Port::PLACES];

/// The state of each port, by its number; that of a disabled port where it isn't up.
pub(crate) type States = [u8; Port::PLACES];

/// What is kept of each port that is up. Contracts see the list, ascending by port.
#[derive(Drop)]
pub(crate) struct Places {
    pub(crate) slots: Slots,
    /// The slots from here on are empty, so that a pass ends here.
    pub(crate) used: u8,
}

impl Model for Places {
    ghost use Rattle.std.specs.Prelude.{ℕ, List};
    ghost use Rattle.br_model.specs.declared.tree.TreePort.{TreePort as PortValue};
    ghost use Rattle.stp_core.specs.Places.{AreEmptyFrom, entries_at};

    ghost Value = { List (ℕ × PortValue) };

    ghost view = { λ p. entries_at 0 p.slots };

    ghost invariant = { λ p. AreEmptyFrom p.used p.slots };
}

/// What happens at one port.
pub(crate) trait Rule {
    ghost changed: { Self → ℕ × PortValue → PortValue };

    fn change(&self, p: u8, x: &mut TreePort)
        ensures { x.new ≡ changed self.now (p, x.old) };
}

/// What is asked of one port.
pub(crate) trait Test {
    ghost holds: { Self → ℕ × PortValue → Bool };

    fn passes(&self, p: u8, x: &TreePort) -> bool
        ensures { result ≡ holds self.now (p, x.now) };
}

impl Places {
    /// No port is up.
    pub(crate) fn empty() -> Places
        ensures { result ≡ [] }
    {
        Places {
            slots: [None; Port::PLACES],
            used: 0,
        }
    }

    /// The same of each port.
    pub(crate) fn copy(&self) -> Places
        ensures { result ≡ self.now }
    {
        Places {
            slots: self.slots,
            used: self.used,
        }
    }

    /// The rule at each port that is up.
    pub(crate) fn change_each<R: Rule>(&mut self, rule: &R)
        ensures { self.new ≡ each (R.changed rule.now) self.old }
    {
        change_each(rule, &mut self.slots, self.used);
    }

    /// The rule at this port, if it is up.
    pub(crate) fn change_at<R: Rule>(&mut self, rule: &R, p: u8)
        requires { p ≤ last_port }
        ensures { self.new ≡ each (λ e. if e.0 == p then R.changed rule.now e else e.1) self.old }
    {
        change_at(rule, p, &mut self.slots);
    }

    /// The ports that are up and pass the test.
    pub(crate) fn ports_where<T: Test>(&self, test: &T) -> Ports
        ensures { result ≡ numbers (filter (T.holds test.now) self.now) }
    {
        ports_where(test, &self.slots, self.used)
    }

    /// Whether a port that is up passes the test.
    pub(crate) fn any<T: Test>(&self, test: &T) -> bool
        ensures { result ≡ list_any (T.holds test.now) self.now }
    {
        !self.ports_where(test).is_empty()
    }

    /// The state of each port.
    pub(crate) fn states(&self) -> States
        ensures { (p : ℕ) → get_or result p disabled ≡ state_in self.now p }
    {
        states_of(&self.slots, self.used)
    }

    /// A law, whose body does nothing: each number is that of a port.
    pub(crate) fn numbers_are_of_ports(&self)
        ensures { All (λ n. n ≤ last_port) (numbers self.now) }
    {
        // law: the invariant says it
        numbers_are_of_ports(&self.slots, self.used);
    }

    /// What is kept of the port, if it is up.
    #[tactic(auto, using(crate::proofs::Reading::get_at))]
    pub(crate) fn get(&self, p: u8) -> Option<TreePort>
        requires { p ≤ last_port }
        ensures { result ≡ get nat_cmp self.now p }
    {
        self.slots[usize::from(p)]
    }

    /// The port is up, and this is kept of it.
    pub(crate) fn put(&mut self, p: u8, x: TreePort)
        requires { p ≤ last_port }
        ensures { self.new ≡ put nat_cmp self.old p x }
    {
        put(p, x, &mut self.slots);
        self.used = self.used.max(p + 1);
    }

    /// The port isn't up.
    pub(crate) fn take(&mut self, p: u8)
        requires { p ≤ last_port }
        ensures { self.new ≡ without nat_cmp self.old p }
    {
        self.slots[usize::from(p)] = None;
    }
}

// A law, whose body does nothing: places from a `u8` on are behind the last port.
fn numbers_are_of_ports(places: &Slots, used: u8)
    requires { AreEmptyFrom used places.now }
    ensures { All (λ n. n ≤ last_port) (numbers (entries_at 0 places.now)) }
{
    // law: a `u8` is at most 255
    let _used = used;
    let _places = places;
}

fn change_each<R: Rule>(rule: &R, places: &mut Slots, used: u8)
    requires { AreEmptyFrom used places.old }
    ensures entries { entries_at 0 places.new ≡ each (R.changed rule.now) (entries_at 0 places.old) }
    ensures empty { AreEmptyFrom used places.new }
{
    for p in 0..used {
        if let Some(x) = &mut places[usize::from(p)] {
            rule.change(p, x);
        }
    }
}

fn change_at<R: Rule>(rule: &R, p: u8, places: &mut Slots)
    requires { p < port_places }
    ensures entries { entries_at 0 places.new ≡ each (λ e. if e.0 == p then R.changed rule.now e else e.1) (entries_at 0 places.old) }
    ensures empty { (n : ℕ) → AreEmptyFrom n places.old → AreEmptyFrom n places.new }
{
    if let Some(x) = &mut places[usize::from(p)] {
        rule.change(p, x);
    }
}

#[tactic(auto, using(crate::proofs::Reading::put_at))]
fn put(p: u8, x: TreePort, places: &mut Slots)
    requires { p < port_places }
    ensures entries { entries_at 0 places.new ≡ put nat_cmp (entries_at 0 places.old) p x }
    ensures empty { (n : ℕ) → p < n → AreEmptyFrom n places.old → AreEmptyFrom n places.new }
{
    places[usize::from(p)] = Some(x);
}

/// The ports that are up and pass the test.
pub(crate) fn ports_where<T: Test>(test: &T, places: &Slots, used: u8) -> Ports
    requires { AreEmptyFrom used places.now }
    ensures { result ≡ numbers (filter (T.holds test.now) (entries_at 0 places.now)) }
{
    let mut ports = Ports::empty();
    for p in 0..used {
        if let Some(x) = &places[usize::from(p)] {
            if test.passes(p, x) {
                ports = ports.with(p);
            }
        }
    }
    // law: the members ascend
    ports.members_ascend();
    ports
}

fn states_of(places: &Slots, used: u8) -> States
    requires { AreEmptyFrom used places.now }
    ensures { (p : ℕ) → get_or result p disabled ≡ state_in (entries_at 0 places.now) p }
{
    let mut states = [0; Port::PLACES];
    for p in 0..used {
        if let Some(x) = &places[usize::from(p)] {
            states[usize::from(p)] = x.state;
        }
    }
    states
}
