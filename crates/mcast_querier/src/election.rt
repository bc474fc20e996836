//! The election of the querier of one IP version.
ghost use Rattle.std.specs.Prelude.{◌≡◌, ◌<◌, ◌^◌};
ghost use Rattle.mcast_querier.specs.Election.{first_election, hears, is_due, passed, queried, queries_at, resumed};

use std::marker::Model;

/// How far queries are apart, in milliseconds (RFC 2236 section 8.2, RFC 2710 section 7.2).
const QUERY_INTERVAL: u64 = 125_000;

/// How far the startup queries are apart (RFC 2236 section 8.6, RFC 2710 section 7.6).
const STARTUP_QUERY_INTERVAL: u64 = 31_250;

/// How many startup queries there are (RFC 2236 section 8.7, RFC 2710 section 7.7).
const STARTUP_QUERY_COUNT: u8 = 2;

/// How long another querier is present that was heard (RFC 2236 section 8.5, RFC 2710 section 7.5).
const OTHER_QUERIER_PRESENT_INTERVAL: u64 = 255_000;

/// The host's own address, when its next query is due, how many startup queries are left, and until when another querier is
/// present, where one is. Moments are in milliseconds.
#[derive(Clone, Copy)]
pub(crate) struct Election {
    pub(crate) address: u128,
    due: u64,
    startup: u8,
    other: Option<u64>,
}

impl Model for Election {
    ghost use Rattle.mcast_querier.specs.Election.{Election as ElectionOf};

    ghost Value = { ElectionOf };

    ghost view = { λ e. record { address = e.address; due = e.due; startup = e.startup; other = e.other } };

    ghost inverse = { λ e. record { address = e.address; due = e.due; startup = e.startup; other = e.other } };
}

impl Election {
    pub(crate) fn first(address: u128) -> Election
        ensures { result ≡ first_election address }
    {
        Election {
            address,
            due: 0,
            startup: STARTUP_QUERY_COUNT,
            other: None,
        }
    }

    /// A general query is heard from this address. A lower one than the own is another querier's.
    pub(crate) fn hears(&mut self, address: u128, now: u64)
        requires { now < 2 ^ 53 }
        ensures { self.new ≡ hears self.old address now }
    {
        if address < self.address {
            self.other = Some(now + OTHER_QUERIER_PRESENT_INTERVAL);
        }
    }

    /// Whether a query leaves at this moment.
    pub(crate) fn queries_at(&self, now: u64) -> bool
        ensures { result ≡ queries_at self.now now }
    {
        self.resumed(now).is_due(now)
    }

    /// The election after this moment.
    pub(crate) fn passed(&self, now: u64) -> Election
        requires { now < 2 ^ 53 }
        ensures { result ≡ passed self.now now }
    {
        let resumed = self.resumed(now);
        if resumed.is_due(now) {
            resumed.queried(now)
        } else {
            resumed
        }
    }

    // Another querier that wasn't heard for so long is gone, and a query is due at once.
    fn resumed(&self, now: u64) -> Election
        ensures { result ≡ resumed self.now now }
    {
        match self.other {
            Some(end) if end <= now => Election {
                address: self.address,
                due: now,
                startup: self.startup,
                other: None,
            },
            Some(_) | None => *self,
        }
    }

    fn is_due(&self, now: u64) -> bool
        ensures { result ≡ is_due self.now now }
    {
        self.other.is_none() && self.due <= now
    }

    // A query has left.
    fn queried(&self, now: u64) -> Election
        requires { now < 2 ^ 53 }
        ensures { result ≡ queried self.now now }
    {
        let interval = if self.startup > 1 {
            STARTUP_QUERY_INTERVAL
        } else {
            QUERY_INTERVAL
        };
        Election {
            address: self.address,
            due: now + interval,
            startup: self.startup.saturating_sub(1),
            other: self.other,
        }
    }
}
