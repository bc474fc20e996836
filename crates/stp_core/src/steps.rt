//! What happens in the tree: each event is a composition of the rules, in their order.
ghost use Rattle.std.specs.Prelude.{◌≡◌, ◌<◌, ◌^◌, ◌&&◌, ◌||◌, [], None, Some, false};
ghost use Rattle.std.specs.Option.{is_some};
ghost use Rattle.br_model.specs.Tree.Vectors.{is_root};
ghost use Rattle.br_model.specs.Tree.Timers.{is_hello_due, change_ends};
ghost use Rattle.br_model.specs.declared.tree.TreeEvent.TheVariants.{Moment};
ghost use Rattle.br_model.specs.Tree.Step.{states_due, tcn_due, hello_due, tree_step};
ghost use Rattle.stp_core.specs.Acting.{acted};
ghost use Rattle.stp_core.specs.Settling.{hands_over_by, detects_by, settled_by};

use crate::messages::Sent;
use crate::parameters::Parameters;
use crate::timers::has_passed;
use port_sets::Ports;

/// Between two hellos of the root, and two notifications, in milliseconds.
pub(crate) const HELLO_TIME: u64 = 2000;

pub(crate) const TCN_TIME: u64 = 2000;

/// What is remembered of the tree before an event.
#[derive(Clone, Copy)]
pub(crate) struct Before {
    pub(crate) is_root: bool,
    /// Whether its own topology change is on.
    pub(crate) is_changing: bool,
}

pub(crate) fn nothing_sent() -> Sent
    ensures { result ≡ record { config = []; tcn = None } }
{
    Sent {
        config: Ports::empty(),
        tcn: None,
    }
}

impl Parameters {
    pub(crate) fn before(&self) -> Before
        ensures { result ≡ record { is_root = is_root self.now; is_changing = is_some self.now.change_end } }
    {
        Before {
            is_root: self.is_root(),
            is_changing: self.change_end.is_some(),
        }
    }

    // Who becomes the root owes no notification; who stops being it ends its topology change.
    fn hand_over(&mut self, before: Before, now: u64)
        ensures { self.new ≡ hands_over_by before now self.old }
    {
        let is_root = self.is_root();
        if !before.is_root && is_root {
            self.notified = None;
            self.hello = now;
        } else if before.is_root && !is_root {
            self.change_end = None;
        }
    }

    // Whether a topology change is detected once roles are taken.
    fn detects(&self, kept: bool, before: Before) -> bool
        ensures { result ≡ detects_by kept before self.now }
    {
        let is_root = self.is_root();
        let becomes_root = !before.is_root && is_root;
        let stops_being_root = before.is_root && !is_root;
        self.is_blocked_by_roles()
            || becomes_root
            || (kept && stops_being_root && before.is_changing)
    }

    // What follows on a change of the tree; `kept` where the change is a message that was kept.
    pub(crate) fn settle(&mut self, kept: bool, before: Before, now: u64) -> Sent
        requires { now < 2 ^ 53 }
        ensures { acted self.new result ≡ settled_by kept before now self.old }
    {
        self.take_roles();
        let found = self.detects(kept, before);
        self.follow_roles(now);
        self.hand_over(before, now);
        let mut sent = nothing_sent();
        self.detect_if(found, now, &mut sent);
        if !before.is_root && self.is_root() {
            self.generate(now, &mut sent);
        }
        sent
    }

    // States that are due move, and what that detects.
    fn let_states_move(&mut self, now: u64, sent: &mut Sent)
        requires { now < 2 ^ 53 }
        ensures { acted self.new sent.new ≡ states_due now (acted self.old sent.old) }
    {
        let opened = self.is_opened_by_time(now);
        self.move_states(now);
        self.detect_if(opened, now, sent);
    }

    fn end_change(&mut self, now: u64)
        ensures { self.new ≡ change_ends now self.old }
    {
        if self.change_end.is_some_and(|end| end <= now) {
            self.change_end = None;
        }
    }

    // A notification that isn't acknowledged goes out again.
    fn repeat_notification(&mut self, now: u64, sent: &mut Sent)
        ensures { acted self.new sent.new ≡ tcn_due now (acted self.old sent.old) }
    {
        if let Some(last) = self.notified {
            if has_passed(last, TCN_TIME, now) {
                if let Some(p) = self.root().port {
                    self.notify(p, now, sent);
                }
            }
        }
    }

    fn is_hello_due(&self, now: u64) -> bool
        ensures { result ≡ (is_root self.now && is_hello_due now self.now) }
    {
        self.is_root() && has_passed(self.hello, HELLO_TIME, now)
    }

    // The root sends its hello.
    fn send_hello(&mut self, now: u64, sent: &mut Sent)
        requires { now < 2 ^ 53 }
        ensures { acted self.new sent.new ≡ hello_due now (acted self.old sent.old) }
    {
        if self.is_hello_due(now) {
            self.hello = now;
            self.generate(now, sent);
        }
    }

    // The moment is told.
    #[tactic(auto, using(crate::proofs::Settlements::settled_is), unfolding(br_model::specs::Tree::Step::tree_step))]
    pub(crate) fn pass_moment(&mut self, now: u64) -> Sent
        requires { now < 2 ^ 53 }
        ensures { acted self.new result ≡ tree_step self.old now Moment }
    {
        if !self.on {
            return nothing_sent();
        }
        let before = self.before();
        self.forget(now);
        let mut sent = self.settle(false, before, now);
        self.let_states_move(now, &mut sent);
        self.end_change(now);
        self.repeat_notification(now, &mut sent);
        self.send_hello(now, &mut sent);
        self.send_put_off(now, &mut sent);
        sent
    }
}
