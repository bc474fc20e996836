//! The rules that change each port on its own: what is forgotten, roles, and states.
ghost use Rattle.std.specs.Prelude.{◌≡◌, ◌+◌, ◌==◌, ◌&&◌, ◌||◌, None, Some, true, false, get_or, nat_le, not, if◌then◌else◌};
ghost use Rattle.std.specs.List.{filter};
ghost use Rattle.std.specs.Option.{option_map_or};
ghost use Rattle.br_model.specs.Tree.Vectors.{without_kept, is_designated_by, is_port_of, roles, designated_ports};
ghost use Rattle.br_model.specs.Tree.Timers.{is_aged_out, forgets};
ghost use Rattle.br_model.specs.Tree.States.{by_role, enters, is_open, states_follow, states_move, listening, learning, is_blocked_by_roles, is_opened_by_time};
ghost use Rattle.br_model.specs.Tree.Sending.{is_put_off, drops_put_off};
ghost use Rattle.br_model.specs.Tree.Step.{moved, restarted, on_at, off_at};
ghost use Rattle.br_model.specs.Tree.Tree.{Tree as TreeValue, numbers, state_at};
ghost use Rattle.br_model.specs.Table.Table.{disabled};
ghost use Rattle.stp_core.specs.Settling.{AreStates, state_in};

use crate::parameters::Parameters;
use crate::places::{Places, Rule, States, Test, ports_where};
use crate::timers::{has_passed, is_aged_out, is_held};
use crate::vectors::{Election, is_designated, is_root_port};
use br_model::change::{BLOCKING, DISABLED, FORWARDING, LEARNING, LISTENING};
use br_model::tree::{Stamped, TreePort};
use port_sets::Ports;

// Whether the port is the root port or designated.
pub(crate) fn is_active(election: &Election, p: u8, x: &TreePort) -> bool
    ensures { result ≡ (is_port_of election.now.root p || is_designated_by election.now.id election.now.root (p, x.now)) }
{
    is_root_port(&election.root, p) || is_designated(election.id, &election.root, p, x)
}

// Whether a listening or learning port has been so for the delay.
fn is_due(delay: u64, now: u64, x: &TreePort) -> bool
    ensures { result ≡ ((x.now.state == listening || x.now.state == learning) && nat_le (x.now.since + delay) now) }
{
    (x.state == LISTENING || x.state == LEARNING) && has_passed(x.since, delay, now)
}

// What has aged out is forgotten.
#[derive(Clone, Copy)]
struct Forgetting {
    now: u64,
}

impl Rule for Forgetting {
    ghost changed = { λ r e. if option_map_or (is_aged_out r.now) e.1.kept false then record e.1 { kept = None } else e.1 };

    fn change(&self, _p: u8, x: &mut TreePort) {
        if let Some(k) = &x.kept {
            if is_aged_out(self.now, k) {
                x.kept = None;
            }
        }
    }
}

// Designated ports forget what they kept.
#[derive(Clone, Copy)]
struct TakingRoles {
    election: Election,
}

impl Rule for TakingRoles {
    ghost changed = { λ r e. without_kept (is_designated_by r.election.id r.election.root e) e.1 };

    fn change(&self, p: u8, x: &mut TreePort) {
        if is_designated(self.election.id, &self.election.root, p, x) {
            x.kept = None;
        }
    }
}

// Blocking ports with a role begin to listen, ports without one block.
#[derive(Clone, Copy)]
struct FollowingRoles {
    election: Election,
    now: u64,
}

impl Rule for FollowingRoles {
    ghost changed = { λ r e. by_role (is_port_of r.election.root e.0 || is_designated_by r.election.id r.election.root e) r.now e.1 };

    fn change(&self, p: u8, x: &mut TreePort) {
        if is_active(&self.election, p, x) {
            if x.state == BLOCKING {
                enter(LISTENING, self.now, x);
            }
        } else if x.state != BLOCKING {
            enter(BLOCKING, self.now, x);
        }
    }
}

// States that are due move one step.
#[derive(Clone, Copy)]
struct MovingStates {
    delay: u64,
    now: u64,
}

impl Rule for MovingStates {
    ghost changed = { λ r e. if (e.1.state == listening || e.1.state == learning) && nat_le (e.1.since + r.delay) r.now
        then enters (e.1.state + 1) r.now e.1 else e.1 };

    fn change(&self, _p: u8, x: &mut TreePort) {
        if is_due(self.delay, self.now, x) {
            enter(x.state + 1, self.now, x);
        }
    }
}

// Ports that aren't designated drop a message that was put off, and what they owe with it.
#[derive(Clone, Copy)]
struct DroppingPutOff {
    election: Election,
    now: u64,
}

impl Rule for DroppingPutOff {
    ghost changed = { λ r e. if is_put_off r.now e.1 && not (is_designated_by r.election.id r.election.root e)
        then record e.1 { put_off = false; owed = false } else e.1 };

    fn change(&self, p: u8, x: &mut TreePort) {
        if is_put_off(self.now, x) && !is_designated(self.election.id, &self.election.root, p, x) {
            x.put_off = false;
            x.owed = false;
        }
    }
}

// Nothing is kept, sent or owed.
#[derive(Clone, Copy)]
struct Restarting {
    state: u8,
    now: u64,
}

impl Rule for Restarting {
    ghost changed = { λ r e. restarted r.state r.now e.1 };

    fn change(&self, _p: u8, x: &mut TreePort) {
        enter(self.state, self.now, x);
        x.kept = None;
        x.last = None;
        x.put_off = false;
        x.owed = false;
    }
}

// The state, entered at this moment.
fn enter(state: u8, now: u64, x: &mut TreePort)
    ensures { x.new ≡ enters state now x.old }
{
    x.state = state;
    x.since = now;
}

// Whether a message that was put off may go out.
fn is_put_off(now: u64, x: &TreePort) -> bool
    ensures { result ≡ is_put_off now x.now }
{
    x.put_off && !is_held(now, x)
}

#[derive(Clone, Copy)]
struct Designated {
    election: Election,
}

impl Test for Designated {
    ghost holds = { λ t e. is_designated_by t.election.id t.election.root e };

    fn passes(&self, p: u8, x: &TreePort) -> bool {
        is_designated(self.election.id, &self.election.root, p, x)
    }
}

// Learning or forwarding, and without a role.
#[derive(Clone, Copy)]
struct BlockedByRoles {
    election: Election,
}

impl Test for BlockedByRoles {
    ghost holds = { λ t e. is_open e.1 && not (is_port_of t.election.root e.0 || is_designated_by t.election.id t.election.root e) };

    fn passes(&self, p: u8, x: &TreePort) -> bool {
        (x.state == LEARNING || x.state == FORWARDING) && !is_active(&self.election, p, x)
    }
}

#[derive(Clone, Copy)]
struct DueToForward {
    delay: u64,
    now: u64,
}

impl Test for DueToForward {
    ghost holds = { λ t e. e.1.state == learning && ((e.1.state == listening || e.1.state == learning) && nat_le (e.1.since + t.delay) t.now) };

    fn passes(&self, _p: u8, x: &TreePort) -> bool {
        x.state == LEARNING && is_due(self.delay, self.now, x)
    }
}

#[derive(Clone, Copy)]
pub(crate) struct PutOff {
    pub(crate) now: u64,
}

impl Test for PutOff {
    ghost holds = { λ t e. is_put_off t.now e.1 };

    fn passes(&self, _p: u8, x: &TreePort) -> bool {
        is_put_off(self.now, x)
    }
}

/// A message is kept.
#[derive(Clone, Copy)]
pub(crate) struct Keeping {
    pub(crate) kept: Stamped,
}

impl Rule for Keeping {
    ghost changed = { λ r e. record e.1 { kept = Some r.kept } };

    fn change(&self, _p: u8, x: &mut TreePort) {
        x.kept = Some(self.kept);
    }
}

/// The next message is to acknowledge a topology change.
#[derive(Clone, Copy)]
pub(crate) struct Owing;

impl Rule for Owing {
    ghost changed = { λ r e. record e.1 { owed = true } };

    fn change(&self, _p: u8, x: &mut TreePort) {
        x.owed = true;
    }
}

/// The cost of the port's path is set.
#[derive(Clone, Copy)]
pub(crate) struct Costing {
    pub(crate) cost: u16,
}

impl Rule for Costing {
    ghost changed = { λ r e. record e.1 { cost = r.cost } };

    fn change(&self, _p: u8, x: &mut TreePort) {
        x.cost = self.cost;
    }
}

/// The port's priority is set.
#[derive(Clone, Copy)]
pub(crate) struct Ranking {
    pub(crate) priority: u8,
}

impl Rule for Ranking {
    ghost changed = { λ r e. record e.1 { priority = r.priority } };

    fn change(&self, _p: u8, x: &mut TreePort) {
        x.priority = self.priority;
    }
}

/// Whether the port was in another state; it was disabled where it wasn't up.
#[derive(Clone, Copy)]
struct Moved<'a> {
    before: &'a States,
}

impl Test for Moved<'_> {
    ghost holds = { λ t e. not (get_or t.before.now e.0 disabled == e.1.state) };

    fn passes(&self, p: u8, x: &TreePort) -> bool {
        let before = self.before;
        match before.get(usize::from(p)) {
            Some(was) => *was != x.state,
            None => x.state != DISABLED,
        }
    }
}

impl Places {
    /// The ports whose state isn't as it was.
    fn moved_from(&self, before: &States) -> Ports
        ensures { (old : TreeValue) → AreStates before.now old → result ≡ filter (λ p. not (state_at old p == state_in self.now p)) (numbers self.now) }
    {
        ports_where(&Moved { before }, &self.slots, self.used)
    }
}

impl Parameters {
    /// Restarts every port, with the tree on.
    pub(crate) fn start(&mut self, now: u64)
        ensures { self.new ≡ on_at now self.old }
    {
        let state = BLOCKING;
        self.places.change_each(&Restarting { state, now });
        self.on = true;
        self.change_end = None;
        self.notified = None;
        self.hello = now;
    }

    /// Restarts every port, with the tree off.
    pub(crate) fn stop(&mut self, now: u64)
        ensures { self.new ≡ off_at now self.old }
    {
        let state = FORWARDING;
        self.places.change_each(&Restarting { state, now });
        self.on = false;
        self.change_end = None;
        self.notified = None;
    }

    /// The ports whose state isn't as it was.
    pub(crate) fn moved_from(&self, before: &States) -> Ports
        ensures { (old : TreeValue) → AreStates before.now old → result ≡ moved old self.now }
    {
        self.places.moved_from(before)
    }

    /// Forgets the messages that have aged out.
    #[tactic(auto, unfolding(br_model::specs::Tree::Timers::forgets))]
    pub(crate) fn forget(&mut self, now: u64)
        ensures { self.new ≡ forgets now self.old }
    {
        self.places.change_each(&Forgetting { now });
    }

    /// Takes roles anew.
    #[tactic(auto, unfolding(br_model::specs::Tree::Vectors::roles))]
    pub(crate) fn take_roles(&mut self)
        ensures { self.new ≡ roles self.old }
    {
        let election = self.election();
        self.places.change_each(&TakingRoles { election });
    }

    /// Lets states follow the roles.
    #[tactic(auto, unfolding(br_model::specs::Tree::States::states_follow))]
    pub(crate) fn follow_roles(&mut self, now: u64)
        ensures { self.new ≡ states_follow now self.old }
    {
        let election = self.election();
        self.places.change_each(&FollowingRoles { election, now });
    }

    /// Moves the states that are due.
    #[tactic(auto, unfolding(br_model::specs::Tree::States::states_move))]
    pub(crate) fn move_states(&mut self, now: u64)
        ensures { self.new ≡ states_move now self.old }
    {
        let delay = self.forward_delay();
        self.places.change_each(&MovingStates { delay, now });
    }

    /// Drops the messages that were put off on ports that aren't designated.
    #[tactic(auto, unfolding(br_model::specs::Tree::Sending::drops_put_off))]
    pub(crate) fn drop_put_off(&mut self, now: u64)
        ensures { self.new ≡ drops_put_off now self.old }
    {
        let election = self.election();
        self.places.change_each(&DroppingPutOff { election, now });
    }

    pub(crate) fn designated_ports(&self) -> Ports
        ensures { result ≡ designated_ports self.now }
    {
        let election = self.election();
        self.places.ports_where(&Designated { election })
    }

    /// Whether the roles make a learning or forwarding port blocking.
    pub(crate) fn is_blocked_by_roles(&self) -> bool
        ensures { result ≡ is_blocked_by_roles self.now }
    {
        let election = self.election();
        self.places.any(&BlockedByRoles { election })
    }

    /// Whether a port is due to forward while some port is designated.
    pub(crate) fn is_opened_by_time(&self, now: u64) -> bool
        ensures { result ≡ is_opened_by_time now self.now }
    {
        let delay = self.forward_delay();
        let election = self.election();
        self.places.any(&DueToForward { delay, now }) && self.places.any(&Designated { election })
    }
}
