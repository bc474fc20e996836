//! The spanning tree, as the control plane tells it events and reads it.
ghost use Rattle.std.specs.Prelude.{◌≡◌, ◌<◌, ◌≤◌, ◌^◌, true, Some, IsSome, IsTrue};
ghost use Rattle.std.specs.List.{All};
ghost use Rattle.br_model.specs.Table.Domains.{last_port};
ghost use Rattle.br_model.specs.Tree.Tree.{first_tree, state_at};
ghost use Rattle.br_model.specs.Tree.Timers.{hold};
ghost use Rattle.br_model.specs.Tree.Sending.{quiet};
ghost use Rattle.br_model.specs.declared.tree.TreeEvent.TheVariants.{Switch, Up, Down, Message, Moment, Cost};
ghost use Rattle.br_model.specs.Tree.Step.{tree_step, message};
ghost use Rattle.br_model.specs.Theorems.TreeLaws.{HaveSent, knows_states};
ghost use Rattle.stp_core.specs.Settling.{ranking, out_of};

use crate::parameters::Parameters;
use br_model::bpdu::BpduMsg;
use br_model::numbers::{Mac, Port};
use br_model::tree::TreeEvent;
use br_model::tree_laws::{known_states, messages_went_out};
use port_sets::Ports;
use std::marker::Model;

/// The spanning tree.
#[derive(Drop)]
pub struct Tree {
    parameters: Parameters,
    /// The first moment at which something is due.
    due: u64,
}

impl Model for Tree {
    ghost use Rattle.std.specs.Prelude.{◌≡◌, true};
    ghost use Rattle.br_model.specs.Tree.Tree as tree;
    ghost use Rattle.br_model.specs.Theorems.TreeLaws.{knows_states};
    ghost use Rattle.stp_core.specs.Due.{IsFirst, is_any_due};

    ghost Value = { tree.Tree };

    ghost view = { λ t. t.parameters };

    ghost invariant = { λ t. record { due : IsFirst t.due (is_any_due t.parameters); known : knows_states t.parameters ≡ true } };
}

/// What an event does besides changing the tree.
#[derive(Clone, Copy, Debug)]
pub struct TreeOut {
    /// The ports whose state it changed.
    pub moved: Ports,
    /// The ports on which a configuration message goes out: `Tree::message` says which.
    pub config: Ports,
    /// The port on which a notification of a topology change goes out.
    pub tcn: Option<Port>,
}

impl Tree {
    /// The tree of the bridge of this address: no port is up, and the tree is off.
    pub fn make(own: Mac) -> Tree
        ensures { result ≡ first_tree own }
    {
        let parameters = Parameters::first(own);
        let due = parameters.due();
        Tree { parameters, due }
    }

    /// Another tree that keeps the same.
    pub fn copy(&self) -> Tree
        ensures { result ≡ self.now }
    {
        Tree {
            parameters: self.parameters.copy(),
            due: self.due,
        }
    }

    /// The event happens at this moment, in milliseconds: that of the calls from `switch` to `set_priority` that it names.
    pub fn act(&mut self, event: &TreeEvent, now: u64) -> TreeOut
        requires { now < 2 ^ 53 }
        ensures tree { self.new ≡ (tree_step self.old now event.now).tree }
        ensures out { result ≡ out_of self.old (tree_step self.old now event.now) }
        ensures spoken { HaveSent self.new result.config }
        ensures known { knows_states self.new ≡ true }
        ensures moved { All (λ n. n ≤ last_port) result.moved }
        ensures config { All (λ n. n ≤ last_port) result.config }
    {
        // law: the states are Linux's numbers
        self.states_are_known();
        // law: events keep the states known
        known_states();
        // law: what went out can be read
        messages_went_out();
        let out = self.take_event(event, now);
        // law: each number is that of a port
        self.parameters.numbers_are_of_ports();
        out
    }

    fn take_event(&mut self, event: &TreeEvent, now: u64) -> TreeOut
        requires { now < 2 ^ 53 }
        ensures tree { self.new ≡ (tree_step self.old now event.now).tree }
        ensures out { result ≡ out_of self.old (tree_step self.old now event.now) }
    {
        match event {
            TreeEvent::Switch(on) => self.switch(*on, now),
            TreeEvent::Up(p) => self.port_up(*p, now),
            TreeEvent::Down(p) => self.port_down(*p, now),
            TreeEvent::Message(p, m) => self.bpdu(*p, m, now),
            TreeEvent::Moment => self.tick(now),
            TreeEvent::Cost(p, n) => self.set_cost(*p, *n, now),
            TreeEvent::PortPriority(p, n) => self.set_priority(Some(*p), u16::from(*n), now),
            TreeEvent::Priority(n) => self.set_priority(None, *n, now),
        }
    }

    /// The spanning tree is switched on or off (IEEE 802.1D-1998 section 8.8.1). `now` is the moment in milliseconds, here
    /// and below.
    pub fn switch(&mut self, on: bool, now: u64) -> TreeOut
        requires { now < 2 ^ 53 }
        ensures tree { self.new ≡ (tree_step self.old now (Switch on)).tree }
        ensures out { result ≡ out_of self.old (tree_step self.old now (Switch on)) }
    {
        // law: events keep the states known
        known_states();
        let before = self.parameters.states();
        let sent = self.parameters.turn(on, now);
        self.due = self.parameters.due();
        self.parameters.out(&before, sent)
    }

    /// A port comes up (section 8.8.2).
    pub fn port_up(&mut self, p: Port, now: u64) -> TreeOut
        requires { now < 2 ^ 53 }
        ensures tree { self.new ≡ (tree_step self.old now (Up p)).tree }
        ensures out { result ≡ out_of self.old (tree_step self.old now (Up p)) }
    {
        // law: events keep the states known
        known_states();
        let before = self.parameters.states();
        let sent = self.parameters.bring_up(p.number(), now);
        self.due = self.parameters.due();
        self.parameters.out(&before, sent)
    }

    /// A port goes down (section 8.8.3).
    pub fn port_down(&mut self, p: Port, now: u64) -> TreeOut
        requires { now < 2 ^ 53 }
        ensures tree { self.new ≡ (tree_step self.old now (Down p)).tree }
        ensures out { result ≡ out_of self.old (tree_step self.old now (Down p)) }
    {
        // law: events keep the states known
        known_states();
        let before = self.parameters.states();
        let sent = self.parameters.take_down(p.number(), now);
        self.due = self.parameters.due();
        self.parameters.out(&before, sent)
    }

    /// A message comes at a port, in whatever state it is (sections 8.7.1 and 8.7.2). At a port that isn't up it does
    /// nothing. A tree that is off is to be told of none: it would answer like one that is on.
    pub fn bpdu(&mut self, p: Port, m: &BpduMsg, now: u64) -> TreeOut
        requires { now < 2 ^ 53 }
        ensures tree { self.new ≡ (tree_step self.old now (Message p m.now)).tree }
        ensures out { result ≡ out_of self.old (tree_step self.old now (Message p m.now)) }
    {
        // law: events keep the states known
        known_states();
        let before = self.parameters.states();
        let sent = self.parameters.receive(p.number(), m, now);
        self.due = self.parameters.due();
        self.parameters.out(&before, sent)
    }

    /// Whether nothing is due: then the moment, if it is told, changes nothing, and nothing goes out.
    pub fn is_idle(&self, now: u64) -> bool
        ensures { IsTrue result → tree_step self.now now Moment ≡ quiet self.now }
    {
        now < self.due
    }

    /// The moment is told: what is due happens, each timer at most once. Where nothing is due it costs a comparison.
    pub fn tick(&mut self, now: u64) -> TreeOut
        requires { now < 2 ^ 53 }
        ensures tree { self.new ≡ (tree_step self.old now Moment).tree }
        ensures out { result ≡ out_of self.old (tree_step self.old now Moment) }
    {
        if self.is_idle(now) {
            return TreeOut {
                moved: Ports::empty(),
                config: Ports::empty(),
                tcn: None,
            };
        }
        self.pass(now)
    }

    fn pass(&mut self, now: u64) -> TreeOut
        requires { now < 2 ^ 53 }
        ensures tree { self.new ≡ (tree_step self.old now Moment).tree }
        ensures out { result ≡ out_of self.old (tree_step self.old now Moment) }
    {
        // law: events keep the states known
        known_states();
        let before = self.parameters.states();
        let sent = self.parameters.pass_moment(now);
        self.due = self.parameters.due();
        self.parameters.out(&before, sent)
    }

    /// The cost of a port's path is set (section 8.8.6).
    pub fn set_cost(&mut self, p: Port, n: u16, now: u64) -> TreeOut
        requires { now < 2 ^ 53 }
        ensures tree { self.new ≡ (tree_step self.old now (Cost p n)).tree }
        ensures out { result ≡ out_of self.old (tree_step self.old now (Cost p n)) }
    {
        // law: events keep the states known
        known_states();
        let before = self.parameters.states();
        let sent = self.parameters.set_cost_at(p.number(), n, now);
        self.due = self.parameters.due();
        self.parameters.out(&before, sent)
    }

    /// The priority of a port, or with none that of the bridge, is set (sections 8.8.5 and 8.8.4).
    pub fn set_priority(&mut self, p: Option<Port>, n: u16, now: u64) -> TreeOut
        requires early { now < 2 ^ 53 }
        requires small { IsSome p → n ≤ 255 }
        ensures tree { self.new ≡ (tree_step self.old now (ranking p n)).tree }
        ensures out { result ≡ out_of self.old (tree_step self.old now (ranking p n)) }
    {
        // law: events keep the states known
        known_states();
        let before = self.parameters.states();
        let sent = self.parameters.set_priority_at(p, n, now);
        self.due = self.parameters.due();
        self.parameters.out(&before, sent)
    }

    /// The state of the port, by Linux's number.
    pub fn state(&self, p: Port) -> u8
        ensures value { result ≡ state_at self.now p }
        ensures below { result ≤ 4 }
    {
        // law: a known state is at most 4
        known_states();
        self.parameters.state(p)
    }

    /// A law, whose body does nothing: each port is in a state that Linux numbers.
    pub fn states_are_known(&self)
        ensures { knows_states self.now ≡ true }
    {
        // law: the invariant says it
        let _parameters = &self.parameters;
    }

    /// While a topology change is on, the time in milliseconds after which learned addresses age.
    pub fn hold(&self) -> Option<u64>
        ensures { result ≡ hold self.now }
    {
        self.parameters.hold()
    }

    /// The configuration message that went out last on the port, since the tree was switched on.
    pub fn message(&self, p: Port) -> BpduMsg
        requires { IsSome (message self.now p) }
        ensures { message self.now p ≡ Some result }
    {
        match self.last_message(p) {
            Some(m) => m,
            None => unreachable!(),
        }
    }

    /// The same, where one went out.
    pub fn last_message(&self, port: Port) -> Option<BpduMsg>
        ensures { result ≡ message self.now port }
    {
        self.parameters.last_message(port)
    }
}
