//! How many entries each port has.
ghost use Rattle.std.specs.Prelude.{◌≡◌, ◌<◌, IfSome, replicate, slice_index};
ghost use Rattle.br_model.specs.Table.Domains.{port_places};
ghost use Rattle.fdb_core.specs.Counts.{less_one, one_more};

use crate::entries::Entry;
use br_model::numbers::Port;

/// A number for each port. Contracts see the list.
#[derive(Drop)]
pub struct PortCounts {
    counts: [usize; Port::PLACES],
}

impl PortCounts {
    pub fn none() -> PortCounts
        ensures { result.counts ≡ replicate port_places 0 }
    {
        PortCounts {
            counts: [0; Port::PLACES],
        }
    }

    pub fn of(&self, port: Port) -> usize
        ensures { result ≡ slice_index self.now.counts port }
    {
        self.counts[usize::from(port.number())]
    }

    /// One more at the port of the entry, where not each of so many entries is counted yet.
    pub fn add(&mut self, entry: &Entry, entries: usize)
        requires { slice_index self.old.counts entry.now.port < entries }
        ensures value { self.new.counts ≡ one_more entry.now.port self.old.counts }
        ensures within { entry.now.port < port_places }
    {
        self.counts[usize::from(entry.port.number())] += 1;
    }

    /// One fewer at the port of the entry that goes, if one goes.
    pub fn remove(&mut self, gone: &Option<Entry>)
        requires { IfSome gone.now (λ e. 0 < slice_index self.old.counts e.port) }
        ensures { self.new.counts ≡ less_one gone.now self.old.counts }
    {
        if let Some(entry) = gone {
            self.counts[usize::from(entry.port.number())] -= 1;
        }
    }
}
