//! What a bridge keeps of itself and of each port, and what can be read of it (IEEE 802.1D-1998 section 8.5).
ghost use Rattle.std.specs.Prelude.{◌≡◌, ◌≤◌, ◌<◌};
ghost use Rattle.std.specs.List.{All};
ghost use Rattle.std.specs.Option.{ForSome};
ghost use Rattle.br_model.specs.Table.Domains.{last_port};
ghost use Rattle.br_model.specs.Tree.Tree.{first_tree, bridge_id, numbers, port_at, state_at};
ghost use Rattle.br_model.specs.Tree.Vectors.{root_of, root_kept, is_root};
ghost use Rattle.br_model.specs.Tree.Timers.{times, forward_delay, is_changing, hold};
ghost use Rattle.stp_core.specs.Settling.{AreStates};

use crate::places::{Places, States};
use crate::timers::{milliseconds, times_of};
use crate::vectors::Election;
use br_model::numbers::{Mac, Port};
use br_model::tree::{Root, Stamped, Times, TreePort};
use std::marker::Model;

/// The parameters and timers of the bridge and of its ports.
#[derive(Drop)]
pub(crate) struct Parameters {
    pub(crate) own: Mac,
    pub(crate) priority: u16,
    pub(crate) on: bool,
    pub(crate) places: Places,
    /// The end of this bridge's own topology change, while it is the root.
    pub(crate) change_end: Option<u64>,
    /// When the last notification went out, while it isn't acknowledged.
    pub(crate) notified: Option<u64>,
    /// From when on the next hello is counted.
    pub(crate) hello: u64,
}

impl Model for Parameters {
    ghost use Rattle.br_model.specs.Tree.Tree as tree;

    ghost Value = { tree.Tree };

    ghost view = { λ t. record {
      own = t.own;
      priority = t.priority;
      on = t.on;
      ports = t.places;
      change_end = t.change_end;
      notified = t.notified;
      hello = t.hello;
    } };
}

impl Parameters {
    pub(crate) fn first(own: Mac) -> Parameters
        ensures { result ≡ first_tree own }
    {
        Parameters {
            own,
            priority: 32768,
            on: false,
            places: Places::empty(),
            change_end: None,
            notified: None,
            hello: 0,
        }
    }

    pub(crate) fn copy(&self) -> Parameters
        ensures { result ≡ self.now }
    {
        Parameters {
            own: self.own,
            priority: self.priority,
            on: self.on,
            places: self.places.copy(),
            change_end: self.change_end,
            notified: self.notified,
            hello: self.hello,
        }
    }

    /// A law, whose body does nothing: each number is that of a port.
    pub(crate) fn numbers_are_of_ports(&self)
        ensures { All (λ n. n ≤ last_port) (numbers self.now.ports) }
    {
        // law: the places say it
        self.places.numbers_are_of_ports();
    }

    /// The state of each port.
    pub(crate) fn states(&self) -> States
        ensures { AreStates result self.now }
    {
        self.places.states()
    }

    /// The identifier of the bridge: its priority, then its address.
    pub(crate) fn bridge_id(&self) -> u64
        ensures { result ≡ bridge_id self.now }
    {
        (u64::from(self.priority) << 48) + self.own.number()
    }

    #[tactic(auto, unfolding(br_model::specs::Tree::Vectors::root_of))]
    pub(crate) fn root(&self) -> Root
        ensures value { result ≡ root_of self.now }
        ensures last { ForSome result.port (λ p. p ≤ last_port) }
    {
        self.places.elect(self.bridge_id())
    }

    pub(crate) fn election(&self) -> Election
        ensures { result ≡ record { id = bridge_id self.now; root = root_of self.now } }
    {
        Election {
            id: self.bridge_id(),
            root: self.root(),
        }
    }

    pub(crate) fn is_root(&self) -> bool
        ensures { result ≡ is_root self.now }
    {
        self.root().port.is_none()
    }

    pub(crate) fn port(&self, p: u8) -> Option<TreePort>
        requires { p ≤ last_port }
        ensures { result ≡ port_at self.now p }
    {
        self.places.get(p)
    }

    /// What the root port has kept.
    pub(crate) fn root_kept(&self) -> Option<Stamped>
        ensures { result ≡ root_kept self.now }
    {
        let p = self.root().port?;
        let x = self.port(p)?;
        x.kept
    }

    pub(crate) fn times(&self) -> Times
        ensures { result ≡ times self.now }
    {
        times_of(self.root_kept())
    }

    pub(crate) fn forward_delay(&self) -> u64
        ensures { result ≡ forward_delay self.now }
    {
        milliseconds(self.times().delay)
    }

    pub(crate) fn is_changing(&self) -> bool
        ensures { result ≡ is_changing self.now }
    {
        match self.root_kept() {
            None => self.change_end.is_some(),
            Some(k) => k.message.flags & 1 == 1,
        }
    }

    pub(crate) fn state(&self, p: Port) -> u8
        ensures { result ≡ state_at self.now p }
    {
        match self.port(p.number()) {
            Some(x) => x.state,
            None => 0,
        }
    }

    pub(crate) fn hold(&self) -> Option<u64>
        ensures { result ≡ hold self.now }
    {
        if self.on && self.is_changing() {
            Some(self.forward_delay())
        } else {
            None
        }
    }
}
