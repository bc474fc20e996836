//! The first moment at which something is due: the moments before it change nothing.
ghost use Rattle.std.specs.Prelude.{◌≡◌, ◌+◌, ◌-◌, ◌^◌, min};
ghost use Rattle.std.specs.List.{list_any};
ghost use Rattle.br_model.specs.Tree.Timers.{is_tcn_due};
ghost use Rattle.br_model.specs.Tree.Sending.{is_put_off};
ghost use Rattle.stp_core.specs.Due.{IsFirst, is_age_over, is_delay_over, is_unsettled, is_due_at, is_change_over, says_hello, is_timer_due, is_any_due};
ghost use Rattle.stp_core.specs.Places.{AreEmptyFrom, entries_at};

use crate::parameters::Parameters;
use crate::places::{Places, Slots};
use crate::rules::is_active;
use crate::steps::{HELLO_TIME, TCN_TIME};
use crate::timers::{HOLD_TIME, milliseconds};
use crate::vectors::{Election, is_designated};
use br_model::change::{BLOCKING, LEARNING, LISTENING};
use br_model::tree::TreePort;

// For what is never due.
const NEVER: u64 = u64::MAX;

// When a timer expires, or the latest moment.
fn expiry(start: u64, span: u64) -> u64
    ensures { result ≡ min (start + span) (2 ^ 64 - 1) }
{
    start.saturating_add(span)
}

// Whether the port is to forget what it keeps, or to change its state, by its role. Events aren't meant to leave a port so;
// no proof rests on that.
fn is_unsettled(election: &Election, p: u8, x: &TreePort) -> bool
    ensures { result ≡ is_unsettled election.now (p, x.now) }
{
    let is_blocked = x.state == BLOCKING;
    (is_designated(election.id, &election.root, p, x) && x.kept.is_some())
        || is_active(election, p, x) == is_blocked
}

fn message_age_expiry(x: &TreePort) -> u64
    ensures { IsFirst result (λ now. is_age_over now x.now) }
{
    match &x.kept {
        Some(k) => {
            let left = k.message.max.saturating_sub(k.message.age);
            expiry(k.moment, milliseconds(left))
        }
        None => NEVER,
    }
}

fn forward_delay_expiry(delay: u64, x: &TreePort) -> u64
    ensures { IsFirst result (λ now. is_delay_over delay now x.now) }
{
    if x.state == LISTENING || x.state == LEARNING {
        expiry(x.since, delay)
    } else {
        NEVER
    }
}

// When a message that was put off may go out.
fn hold_expiry(x: &TreePort) -> u64
    ensures { IsFirst result (λ now. is_put_off now x.now) }
{
    match &x.last {
        Some(last) if x.put_off => expiry(last.moment, HOLD_TIME),
        None if x.put_off => 0,
        Some(_) | None => NEVER,
    }
}

fn port_due(election: &Election, delay: u64, p: u8, x: &TreePort) -> u64
    ensures { IsFirst result (λ now. is_due_at election.now delay now (p, x.now)) }
{
    if is_unsettled(election, p, x) {
        return 0;
    }
    message_age_expiry(x)
        .min(forward_delay_expiry(delay, x))
        .min(hold_expiry(x))
}

fn ports_due(election: &Election, delay: u64, places: &Slots, used: u8) -> u64
    requires { AreEmptyFrom used places.now }
    ensures { IsFirst result (λ now. list_any (is_due_at election.now delay now) (entries_at 0 places.now)) }
{
    let mut due = NEVER;
    for p in 0..used {
        if let Some(x) = &places[usize::from(p)] {
            due = due.min(port_due(election, delay, p, x));
        }
    }
    due
}

impl Places {
    /// The first moment at which something is due at a port.
    fn due(&self, election: &Election, delay: u64) -> u64
        ensures { IsFirst result (λ now. list_any (is_due_at election.now delay now) self.now) }
    {
        ports_due(election, delay, &self.slots, self.used)
    }
}

impl Parameters {
    fn change_expiry(&self) -> u64
        ensures { IsFirst result (λ now. is_change_over now self.now) }
    {
        self.change_end.unwrap_or(NEVER)
    }

    fn notification_expiry(&self) -> u64
        ensures { IsFirst result (λ now. is_tcn_due now self.now) }
    {
        match self.notified {
            Some(last) => expiry(last, TCN_TIME),
            None => NEVER,
        }
    }

    fn hello_expiry(&self) -> u64
        ensures { IsFirst result (λ now. says_hello now self.now) }
    {
        if self.is_root() {
            expiry(self.hello, HELLO_TIME)
        } else {
            NEVER
        }
    }

    fn timers_due(&self) -> u64
        ensures { IsFirst result (λ now. is_timer_due now self.now) }
    {
        self.change_expiry()
            .min(self.notification_expiry())
            .min(self.hello_expiry())
    }

    /// The first moment at which something is due.
    pub(crate) fn due(&self) -> u64
        ensures { IsFirst result (is_any_due self.now) }
    {
        if self.on {
            self.timers_due()
                .min(self.places.due(&self.election(), self.forward_delay()))
        } else {
            NEVER
        }
    }
}
