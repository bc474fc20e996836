//! Moments in milliseconds, and times in 1/256 s.
ghost use Rattle.std.specs.Prelude.{◌≡◌, ◌+◌, ◌<◌, ◌^◌, nat_le};
ghost use Rattle.br_model.specs.Tree.Timers.{is_aged_out, is_held, milliseconds, ticks, times_of};
ghost use Rattle.br_model.specs.Tree.Sending.{age_at};

use br_model::tree::{Stamped, Times, TreePort};

/// Less than this, in milliseconds, lies between two configuration messages of a port.
pub(crate) const HOLD_TIME: u64 = 1000;

/// Whether so many milliseconds have passed since the start.
pub(crate) fn has_passed(start: u64, span: u64, now: u64) -> bool
    ensures { result ≡ nat_le (start + span) now }
{
    match start.checked_add(span) {
        Some(end) => end <= now,
        None => false,
    }
}

pub(crate) fn milliseconds(ticks: u16) -> u64
    ensures { result ≡ milliseconds ticks }
{
    1000 * u64::from(ticks) / 256
}

/// Whether what was left of a message's max age when it came is over.
pub(crate) fn is_aged_out(now: u64, k: &Stamped) -> bool
    ensures { result ≡ is_aged_out now k.now }
{
    has_passed(
        k.moment,
        milliseconds(k.message.max.saturating_sub(k.message.age)),
        now,
    )
}

/// Whether it is less than a second since the port's last configuration message.
pub(crate) fn is_held(now: u64, x: &TreePort) -> bool
    ensures { result ≡ is_held now x.now }
{
    match &x.last {
        Some(last) => !has_passed(last.moment, HOLD_TIME, now),
        None => false,
    }
}

/// The times in use, by what the root port has kept.
pub(crate) fn times_of(kept: Option<Stamped>) -> Times
    ensures { result ≡ times_of kept }
{
    match kept {
        None => Times {
            max: 5120,
            hello: 512,
            delay: 3840,
        },
        Some(k) => Times {
            max: k.message.max,
            hello: k.message.hello,
            delay: k.message.delay,
        },
    }
}

/// The age of the messages that go out at this moment.
pub(crate) fn age_at(now: u64, kept: Option<Stamped>) -> u64
    requires { now < 2 ^ 53 }
    ensures { result ≡ age_at now kept }
{
    match kept {
        None => 0,
        Some(k) => { u64::from(k.message.age) + 256 * (now.saturating_sub(k.moment) + 1000) / 1000 }
    }
}
