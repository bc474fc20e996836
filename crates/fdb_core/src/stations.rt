//! Where stations are: entries without moments.
ghost use Rattle.std.specs.Prelude.{◌≡◌, ◌<◌, None, [], IfOk, length};
ghost use Rattle.br_model.specs.Data.Maps.{pair_cmp, get, put, without};

use crate::NoMemory;
use crate::packing::pack;
use br_model::change::Kind;
use br_model::numbers::{Mac, Port, Vid};
use open_addressing::map::Numbered;
use std::alloc::Global;
use std::marker::Model;

/// The port and the kind of each entry, by VLAN and address.
#[derive(Drop)]
pub struct Stations {
    places: Numbered<(Port, Kind)>,
}

impl Model for Stations {
    ghost use Rattle.open_addressing.specs.Pairs.{by_pair};
    ghost use Rattle.fdb_core.specs.Stations.{Whereabouts};

    ghost Value = { Whereabouts };

    ghost view = { λ s. record { entries = by_pair s.places.entries; room = s.places.room } };
}

/// What no address has.
const BLANK: (Port, Kind) = (Port::HOST, Kind::Local);

impl Stations {
    /// Takes the room for `cap` entries.
    pub fn make(alloc: Global, cap: usize) -> Result<Stations, NoMemory>
        ensures { IfOk result (λ s. s ≡ record { entries = []; room = cap }) }
    {
        Ok(Stations {
            places: Numbered::make(alloc, cap, BLANK)?,
        })
    }

    pub fn len(&self) -> usize
        ensures { result ≡ length self.now.entries }
    {
        self.places.len()
    }

    pub fn find(&self, vid: Vid, mac: Mac) -> Option<(Port, Kind)>
        ensures { result ≡ get pair_cmp self.now.entries (vid, mac) }
    {
        self.places.get(&pack(vid, mac))
    }

    /// Puts an entry at the address, in place of the one that is there.
    pub fn put(&mut self, vid: Vid, mac: Mac, port: Port, kind: Kind)
        requires { get pair_cmp self.old.entries (vid, mac) ≡ None → length self.old.entries < self.old.room }
        ensures { self.new ≡ record self.old { entries = put pair_cmp self.old.entries (vid, mac) (port, kind) } }
    {
        self.places.insert(&pack(vid, mac), (port, kind));
    }

    /// Takes the entry at the address out, if there is one.
    pub fn take(&mut self, vid: Vid, mac: Mac)
        ensures { self.new ≡ record self.old { entries = without pair_cmp self.old.entries (vid, mac) } }
    {
        let _ = self.places.take(&pack(vid, mac));
    }
}
