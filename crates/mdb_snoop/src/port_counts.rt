//! Of how many groups each port is a member.
ghost use Rattle.std.specs.Prelude.{◌≡◌, ◌+◌, ◌-◌, ◌<◌, ◌≤◌, ◌==◌, [], cond, not, slice_index, slice_set, true};
ghost use Rattle.br_model.specs.Table.Domains.{port_places};
ghost use Rattle.br_model.specs.Table.GroupPairs.{max_pairs};
ghost use Rattle.mdb_snoop.specs.Counts.{AreCounts};

use br_model::numbers::Port;

/// A number for each port. Contracts see the list.
#[derive(Drop)]
pub struct PortCounts {
    counts: [u16; Port::PLACES],
}

impl PortCounts {
    pub fn none() -> PortCounts
        ensures { AreCounts result.counts [] }
    {
        PortCounts {
            counts: [0; Port::PLACES],
        }
    }

    /// Whether it is a member at all.
    pub fn has(&self, port: Port) -> bool
        ensures { result ≡ not (slice_index self.now.counts port == 0) }
    {
        self.counts[usize::from(port.number())] != 0
    }

    /// One more where it is a new one.
    pub fn add(&mut self, port: Port, is_new: bool)
        requires { slice_index self.old.counts port ≤ max_pairs }
        ensures value { self.new.counts ≡ cond is_new (slice_set self.old.counts port (slice_index self.old.counts port + 1)) self.old.counts }
        ensures within { port < port_places }
    {
        let place = usize::from(port.number());
        if is_new {
            self.counts[place] += 1;
        }
    }

    /// One less where one was there.
    pub fn remove(&mut self, port: Port, was_there: bool)
        requires { was_there ≡ true → 0 < slice_index self.old.counts port }
        ensures value { self.new.counts ≡ cond was_there (slice_set self.old.counts port (slice_index self.old.counts port - 1)) self.old.counts }
        ensures within { port < port_places }
    {
        let place = usize::from(port.number());
        if was_there {
            self.counts[place] -= 1;
        }
    }
}
