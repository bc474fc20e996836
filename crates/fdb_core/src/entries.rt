//! What stands at an address.
ghost use Rattle.std.specs.Prelude.{◌≡◌};
ghost use Rattle.fdb_core.specs.Fdb.{is_at_port, is_dynamic_at, is_expired, learned_at, learned_moment};

use br_model::change::Kind;
use br_model::numbers::{Mac, Port, Vid};

/// An address of a VLAN. Keys are compared by the VLAN and then by the address.
pub type Key = (Vid, Mac);

/// Where an address is, how it came to be there, and the moment of that in milliseconds.
#[derive(Clone, Copy, PartialEq, Eq, Debug)]
pub struct Entry {
    pub port: Port,
    pub kind: Kind,
    pub updated: u64,
}

impl Entry {
    /// The entry with this moment.
    pub fn renewed(&self, moment: u64) -> Entry
        ensures { result ≡ record self.now { updated = moment } }
    {
        Entry {
            port: self.port,
            kind: self.kind,
            updated: moment,
        }
    }

    pub fn is_at(&self, port: Port) -> bool
        ensures { result ≡ is_at_port port self.now }
    {
        self.port == port
    }

    /// Whether it is of a kind that frames renew, and at the port.
    pub fn is_dynamic_at(&self, port: Port) -> bool
        ensures { result ≡ is_dynamic_at port self.now }
    {
        match self.kind {
            Kind::Learned | Kind::Extern => self.port == port,
            Kind::Static | Kind::Local => false,
        }
    }

    /// Whether it is a learned entry whose time is over at the moment `now`.
    pub fn has_expired(&self, now: u64, hold: u64) -> bool
        ensures { result ≡ is_expired now hold self.now }
    {
        match self.kind {
            Kind::Learned => match self.updated.checked_add(hold) {
                Some(end) => end <= now,
                None => false,
            },
            Kind::Local | Kind::Static | Kind::Extern => false,
        }
    }

    /// Whether it was learned at the moment.
    pub fn is_learned_at(&self, moment: u64) -> bool
        ensures { result ≡ learned_at moment self.now }
    {
        match self.kind {
            Kind::Learned => self.updated == moment,
            Kind::Extern | Kind::Static | Kind::Local => false,
        }
    }

    /// The moment of a learned entry.
    pub fn learned_moment(&self) -> Option<u64>
        ensures { result ≡ learned_moment self.now }
    {
        match self.kind {
            Kind::Learned => Some(self.updated),
            Kind::Extern | Kind::Static | Kind::Local => None,
        }
    }
}
