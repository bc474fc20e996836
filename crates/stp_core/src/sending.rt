//! Sending: configuration messages, those that were put off, and notifications of topology changes.
ghost use Rattle.std.specs.Prelude.{◌≡◌, ◌≤◌, ◌<◌, ◌^◌};
ghost use Rattle.std.specs.declared.option.Option.TheVariants.{Some};
ghost use Rattle.br_model.specs.Table.Domains.{last_port};
ghost use Rattle.br_model.specs.Tree.Sending.{transmit, generate, sends_put_off, notify, detected, detected_if, union};
ghost use Rattle.stp_core.specs.Acting.{acted, voice_of};

use crate::messages::{GoingOut, Sent, Transmitting, Voice};
use crate::parameters::Parameters;
use crate::rules::PutOff;
use crate::timers::age_at;
use br_model::numbers::Port;
use port_sets::Ports;

/// How long the root tells a topology change, in milliseconds: its max age and its forward delay together.
const CHANGE_TIME: u64 = 35_000;

impl Parameters {
    fn voice(&self, now: u64) -> Voice
        requires { now < 2 ^ 53 }
        ensures { result ≡ voice_of self.now now }
    {
        Voice {
            election: self.election(),
            changing: self.is_changing(),
            age: age_at(now, self.root_kept()),
            times: self.times(),
            moment: now,
        }
    }

    /// Each of these ports is to send its message.
    #[tactic(auto, unfolding(br_model::specs::Tree::Sending::transmit))]
    pub(crate) fn transmit(&mut self, ports: Ports, now: u64, sent: &mut Sent)
        requires { now < 2 ^ 53 }
        ensures { acted self.new sent.new ≡ transmit ports now (acted self.old sent.old) }
    {
        let voice = self.voice(now);
        let going = self.places.ports_where(&GoingOut { voice, ports });
        self.places.change_each(&Transmitting { voice, ports });
        sent.config = union(sent.config, going);
    }

    /// Each designated port is to send its message.
    pub(crate) fn generate(&mut self, now: u64, sent: &mut Sent)
        requires { now < 2 ^ 53 }
        ensures { acted self.new sent.new ≡ generate now (acted self.old sent.old) }
    {
        let ports = self.designated_ports();
        self.transmit(ports, now, sent);
    }

    /// Messages that were put off go out where they may.
    pub(crate) fn send_put_off(&mut self, now: u64, sent: &mut Sent)
        requires { now < 2 ^ 53 }
        ensures { acted self.new sent.new ≡ sends_put_off now (acted self.old sent.old) }
    {
        self.drop_put_off(now);
        let ports = self.places.ports_where(&PutOff { now });
        self.transmit(ports, now, sent);
    }

    /// A notification goes out on the root port.
    pub(crate) fn notify(&mut self, p: u8, now: u64, sent: &mut Sent)
        requires { p ≤ last_port }
        ensures { acted self.new sent.new ≡ notify now (Some p) (acted self.old sent.old) }
    {
        self.notified = Some(now);
        sent.tcn = Some(port_of(p));
    }

    /// A topology change is detected: the root begins one, any other bridge tells its root.
    pub(crate) fn detect(&mut self, now: u64, sent: &mut Sent)
        requires { now < 2 ^ 53 }
        ensures { acted self.new sent.new ≡ detected now (acted self.old sent.old) }
    {
        match self.root().port {
            None => self.change_end = Some(now + CHANGE_TIME),
            Some(p) => self.notify(p, now, sent),
        }
    }

    pub(crate) fn detect_if(&mut self, found: bool, now: u64, sent: &mut Sent)
        requires { now < 2 ^ 53 }
        ensures { acted self.new sent.new ≡ detected_if found now (acted self.old sent.old) }
    {
        if found {
            self.detect(now, sent);
        }
    }
}

fn union(a: Ports, b: Ports) -> Ports
    ensures { result ≡ union a b }
{
    // law: the members of both ascend
    a.members_ascend();
    b.members_ascend();
    a.or(b)
}

fn port_of(p: u8) -> Port
    requires { p ≤ last_port }
    ensures { result ≡ p }
{
    match Port::new(p) {
        Some(port) => port,
        None => unreachable!(),
    }
}
