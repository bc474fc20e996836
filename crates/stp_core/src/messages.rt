//! What goes out, and by which messages.
ghost use Rattle.std.specs.Prelude.{◌≡◌, ◌<◌, ◌^◌, ◌&&◌, if◌then◌else◌};
ghost use Rattle.std.specs.Ordering.{nat_cmp};
ghost use Rattle.br_model.specs.Data.Maps.{has};
ghost use Rattle.br_model.specs.Tree.Sending.{flags_of};
ghost use Rattle.stp_core.specs.Acting.{message_by, goes_out_by, transmitted_by};

use crate::places::{Rule, Test};
use crate::timers::is_held;
use crate::vectors::{Election, port_id};
use br_model::numbers::Port;
use br_model::tree::{ConfigMsg, Stamped, Times, TreePort};
use port_sets::Ports;

/// What went out in an event so far.
#[derive(Clone, Copy)]
pub(crate) struct Sent {
    pub(crate) config: Ports,
    pub(crate) tcn: Option<Port>,
}

/// What the messages of a moment have in common.
#[derive(Clone, Copy)]
pub(crate) struct Voice {
    pub(crate) election: Election,
    pub(crate) changing: bool,
    /// In 1/256 s, also where that is more than a message can carry.
    pub(crate) age: u64,
    pub(crate) times: Times,
    pub(crate) moment: u64,
}

// Bit 0 tells a topology change, bit 7 acknowledges one.
fn flags_of(changing: bool, owed: bool) -> u8
    ensures { result ≡ flags_of changing owed }
{
    u8::from(changing) + if owed { 128 } else { 0 }
}

// The message of the port.
fn message_by(v: &Voice, p: u8, x: &TreePort) -> ConfigMsg
    requires { v.now.age < 2 ^ 16 }
    ensures { result ≡ message_by v.now (p, x.now) }
{
    ConfigMsg {
        flags: flags_of(v.changing, x.owed),
        root: v.election.root.id,
        cost: v.election.root.cost,
        bridge: v.election.id,
        port: port_id(p, x),
        age: v.age as u16,
        max: v.times.max,
        hello: v.times.hello,
        delay: v.times.delay,
    }
}

// Whether the message goes out: the port isn't held, and the message not too old.
fn goes_out(v: &Voice, p: u8, x: &TreePort) -> bool
    ensures { result ≡ goes_out_by v.now (p, x.now) }
{
    !is_held(v.moment, x) && v.age < u64::from(v.times.max)
}

/// The ports send their messages.
#[derive(Clone, Copy)]
pub(crate) struct Transmitting {
    pub(crate) voice: Voice,
    pub(crate) ports: Ports,
}

impl Rule for Transmitting {
    ghost changed = { λ r e. if has nat_cmp r.ports e.0 then transmitted_by r.voice e else e.1 };

    #[tactic(auto, using(crate::proofs::Unions::has_number_is))]
    fn change(&self, p: u8, x: &mut TreePort) {
        if self.ports.has(p) {
            transmit_at(&self.voice, p, x);
        }
    }
}

// What can't go out yet is put off; what went out acknowledges once.
fn transmit_at(v: &Voice, p: u8, x: &mut TreePort)
    ensures { x.new ≡ transmitted_by v.now (p, x.old) }
{
    if is_held(v.moment, x) {
        x.put_off = true;
        return;
    }
    if v.age < u64::from(v.times.max) {
        x.last = Some(Stamped {
            message: message_by(v, p, x),
            moment: v.moment,
        });
        x.owed = false;
    }
    x.put_off = false;
}

/// Of these ports, those whose message goes out.
#[derive(Clone, Copy)]
pub(crate) struct GoingOut {
    pub(crate) voice: Voice,
    pub(crate) ports: Ports,
}

impl Test for GoingOut {
    ghost holds = { λ t e. has nat_cmp t.ports e.0 && goes_out_by t.voice e };

    #[tactic(auto, using(crate::proofs::Unions::has_number_is))]
    fn passes(&self, p: u8, x: &TreePort) -> bool {
        self.ports.has(p) && goes_out(&self.voice, p, x)
    }
}
