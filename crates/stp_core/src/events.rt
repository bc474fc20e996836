//! The events of the tree, as the control plane tells them.
ghost use Rattle.std.specs.Prelude.{◌≡◌, ◌/◌, ◌%◌, ◌==◌, ◌<◌, ◌≤◌, ◌^◌, [], ◌∷◌, Some, None, true, IsSome, if◌then◌else◌};
ghost use Rattle.br_model.specs.Table.Domains.{last_port};
ghost use Rattle.br_model.specs.Tree.Tree.{Tree as TreeValue, fresh, bpdu_of};
ghost use Rattle.br_model.specs.declared.tree.TreeEvent.TheVariants.{Switch, Up, Down, Message, Cost};
ghost use Rattle.br_model.specs.Tree.Step.{settled, with_kept, passed_on, config_received, tcn_received, received_at, tree_step, message};
ghost use Rattle.br_model.specs.Tree.States.{blocking};
ghost use Rattle.br_model.specs.Forward.Admission.{forwarding};
ghost use Rattle.stp_core.specs.Acting.{acted};
ghost use Rattle.stp_core.specs.Settling.{AreStates, follows_by, out_of, ranked, ranking};

use crate::messages::Sent;
use crate::parameters::Parameters;
use crate::places::States;
use crate::rules::{Costing, Keeping, Owing, Ranking};
use crate::steps::{Before, nothing_sent};
use crate::tree::TreeOut;
use crate::vectors::{is_designated, is_root_port, keeps};
use br_model::bpdu::BpduMsg;
use br_model::change::{BLOCKING, FORWARDING};
use br_model::numbers::Port;
use br_model::tree::{ConfigMsg, Stamped, TreePort};
use port_sets::Ports;

// The set of this port alone.
fn only(p: u8) -> Ports
    requires { p ≤ last_port }
    ensures { result ≡ p ∷ [] }
{
    Ports::empty().with(p)
}

// The state of a port that comes up.
fn first_state(on: bool) -> u8
    ensures { result ≡ (if on then blocking else forwarding) }
{
    if on { BLOCKING } else { FORWARDING }
}

// A port as it comes up.
fn fresh_port(state: u8, now: u64) -> TreePort
    ensures { result ≡ fresh state now }
{
    TreePort {
        cost: 100,
        priority: 128,
        state,
        since: now,
        kept: None,
        last: None,
        put_off: false,
        owed: false,
    }
}

// Whether bit 7 says that a topology change is acknowledged.
fn acknowledges(m: &ConfigMsg) -> bool
    ensures { result ≡ (m.now.flags / 128 % 2 == 1) }
{
    m.flags >> 7 & 1 == 1
}

impl Parameters {
    /// What is answered.
    pub(crate) fn out(&self, before: &States, sent: Sent) -> TreeOut
        ensures { (old : TreeValue) → AreStates before.now old → result ≡ out_of old (acted self.now sent) }
    {
        TreeOut {
            moved: self.moved_from(before),
            config: sent.config,
            tcn: sent.tcn,
        }
    }

    // While the tree is off nothing follows.
    fn follow(&mut self, before: Before, now: u64) -> Sent
        requires { now < 2 ^ 53 }
        ensures { acted self.new result ≡ follows_by before now self.old }
    {
        if self.on {
            self.settle(false, before, now)
        } else {
            nothing_sent()
        }
    }

    #[tactic(auto, unfolding(br_model::specs::Tree::Step::tree_step))]
    pub(crate) fn turn(&mut self, on: bool, now: u64) -> Sent
        requires { now < 2 ^ 53 }
        ensures { acted self.new result ≡ tree_step self.old now (Switch on) }
    {
        let mut sent = nothing_sent();
        if on {
            self.start(now);
            self.take_roles();
            self.follow_roles(now);
            self.generate(now, &mut sent);
        } else {
            self.stop(now);
        }
        sent
    }

    // The root port passes on what it has kept, and takes an acknowledgement.
    fn pass_on(&mut self, p: u8, m: &ConfigMsg, now: u64, sent: &mut Sent)
        requires { now < 2 ^ 53 }
        ensures { acted self.new sent.new ≡ passed_on now p m.now (acted self.old sent.old) }
    {
        if is_root_port(&self.root(), p) {
            self.generate(now, sent);
            if acknowledges(m) {
                self.notified = None;
            }
        }
    }

    #[tactic(auto, using(crate::proofs::Settlements::settled_is))]
    fn keep(&mut self, p: u8, m: &ConfigMsg, now: u64) -> Sent
        requires early { now < 2 ^ 53 }
        requires port { p ≤ last_port }
        ensures { acted self.new result ≡ passed_on now p m.now (settled true self.old now (with_kept self.old now p m.now)) }
    {
        let before = self.before();
        let kept = Stamped {
            message: *m,
            moment: now,
        };
        self.places.change_at(&Keeping { kept }, p);
        let mut sent = self.settle(true, before, now);
        self.pass_on(p, m, now, &mut sent);
        sent
    }

    fn receive_config(&mut self, p: u8, x: &TreePort, m: &ConfigMsg, now: u64) -> Sent
        requires early { now < 2 ^ 53 }
        requires port { p ≤ last_port }
        ensures { acted self.new result ≡ config_received self.old now (p, x.now) m.now }
    {
        if m.max <= m.age {
            return nothing_sent();
        }
        let election = self.election();
        if keeps(&election, p, x, m) {
            return self.keep(p, m, now);
        }
        let mut sent = nothing_sent();
        if is_designated(election.id, &election.root, p, x) {
            self.transmit(only(p), now, &mut sent);
        }
        sent
    }

    fn receive_tcn(&mut self, p: u8, x: &TreePort, now: u64) -> Sent
        requires early { now < 2 ^ 53 }
        requires port { p ≤ last_port }
        ensures { acted self.new result ≡ tcn_received self.old now (p, x.now) }
    {
        let mut sent = nothing_sent();
        let election = self.election();
        if is_designated(election.id, &election.root, p, x) {
            self.detect(now, &mut sent);
            self.places.change_at(&Owing, p);
            self.transmit(only(p), now, &mut sent);
        }
        sent
    }

    fn receive_at(&mut self, p: u8, x: &TreePort, m: &BpduMsg, now: u64) -> Sent
        requires early { now < 2 ^ 53 }
        requires port { p ≤ last_port }
        ensures { acted self.new result ≡ received_at self.old now (p, x.now) m.now }
    {
        match *m {
            BpduMsg::Config {
                flags,
                root,
                cost,
                bridge,
                port,
                age,
                max,
                hello,
                delay,
            } => {
                let message = ConfigMsg {
                    flags,
                    root,
                    cost,
                    bridge,
                    port,
                    age,
                    max,
                    hello,
                    delay,
                };
                self.receive_config(p, x, &message, now)
            }
            BpduMsg::Tcn => self.receive_tcn(p, x, now),
        }
    }

    #[tactic(auto, unfolding(br_model::specs::Tree::Step::tree_step))]
    pub(crate) fn receive(&mut self, p: u8, m: &BpduMsg, now: u64) -> Sent
        requires early { now < 2 ^ 53 }
        requires port { p ≤ last_port }
        ensures { acted self.new result ≡ tree_step self.old now (Message p m.now) }
    {
        match self.port(p) {
            Some(x) => self.receive_at(p, &x, m, now),
            None => nothing_sent(),
        }
    }

    #[tactic(auto, using(crate::proofs::Settlements::follows_is), unfolding(br_model::specs::Tree::Step::tree_step))]
    pub(crate) fn bring_up(&mut self, p: u8, now: u64) -> Sent
        requires early { now < 2 ^ 53 }
        requires port { p ≤ last_port }
        ensures { acted self.new result ≡ tree_step self.old now (Up p) }
    {
        let before = self.before();
        let state = first_state(self.on);
        self.places.put(p, fresh_port(state, now));
        self.follow(before, now)
    }

    #[tactic(auto, using(crate::proofs::Settlements::follows_is), unfolding(br_model::specs::Tree::Step::tree_step))]
    pub(crate) fn take_down(&mut self, p: u8, now: u64) -> Sent
        requires early { now < 2 ^ 53 }
        requires port { p ≤ last_port }
        ensures { acted self.new result ≡ tree_step self.old now (Down p) }
    {
        let before = self.before();
        self.places.take(p);
        self.follow(before, now)
    }

    #[tactic(auto, using(crate::proofs::Settlements::follows_is), unfolding(br_model::specs::Tree::Step::tree_step))]
    pub(crate) fn set_cost_at(&mut self, p: u8, n: u16, now: u64) -> Sent
        requires early { now < 2 ^ 53 }
        requires port { p ≤ last_port }
        ensures { acted self.new result ≡ tree_step self.old now (Cost p n) }
    {
        let before = self.before();
        self.places.change_at(&Costing { cost: n }, p);
        self.follow(before, now)
    }

    fn rank(&mut self, p: Option<Port>, n: u16)
        requires { IsSome p → n ≤ 255 }
        ensures { self.new ≡ ranked self.old p n }
    {
        match p {
            Some(p) => {
                let priority = n as u8;
                self.places.change_at(&Ranking { priority }, p.number());
            }
            None => self.priority = n,
        }
    }

    #[tactic(auto, using(crate::proofs::Settlements::ranked_is))]
    pub(crate) fn set_priority_at(&mut self, p: Option<Port>, n: u16, now: u64) -> Sent
        requires early { now < 2 ^ 53 }
        requires small { IsSome p → n ≤ 255 }
        ensures { acted self.new result ≡ tree_step self.old now (ranking p n) }
    {
        let before = self.before();
        self.rank(p, n);
        self.follow(before, now)
    }

    pub(crate) fn last_message(&self, p: Port) -> Option<BpduMsg>
        ensures { result ≡ message self.now p }
    {
        let x = self.port(p.number())?;
        let last = x.last?;
        Some(bpdu_of(&last.message))
    }
}

fn bpdu_of(m: &ConfigMsg) -> BpduMsg
    ensures { result ≡ bpdu_of m.now }
{
    BpduMsg::Config {
        flags: m.flags,
        root: m.root,
        cost: m.cost,
        bridge: m.bridge,
        port: m.port,
        age: m.age,
        max: m.max,
        hello: m.hello,
        delay: m.delay,
    }
}
