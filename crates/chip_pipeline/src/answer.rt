//! What the chip answers of a frame.
ghost use Rattle.std.specs.Prelude.{◌≡◌};

use crate::sources::Sighting;
use br_model::frame::Class;
use br_model::numbers::{Mac, Vid};
use port_sets::Ports;
use std::marker::Model;

/// What the chip does with a frame, but for its source.
#[derive(Clone, Copy)]
pub struct Sent {
    pub class: Class,
    pub vid: Option<Vid>,
    pub ports: Ports,
    pub untagged: Ports,
}

/// What the chip does with a frame that enters at one of its ports. Outside of this crate only `pass` makes one.
#[derive(Drop)]
pub struct Pass {
    class: Class,
    vid: Option<Vid>,
    ports: Ports,
    untagged: Ports,
    report: Option<(Vid, Mac)>,
    hit: Option<(Vid, Mac)>,
}

impl Model for Pass {
    ghost use Rattle.chip_pipeline.specs.Passed.{Passed};

    ghost Value = { Passed };

    ghost view = { λ p. record { class = p.class; vid = p.vid; ports = p.ports; untagged = p.untagged; report = p.report; hit = p.hit } };
}

impl Pass {
    pub(crate) fn of(sent: Sent, sighting: Sighting) -> Pass
        ensures { result
            ≡ record { class = sent.class; vid = sent.vid; ports = sent.ports; untagged = sent.untagged; report = sighting.report; hit = sighting.hit } }
    {
        Pass {
            class: sent.class,
            vid: sent.vid,
            ports: sent.ports,
            untagged: sent.untagged,
            report: sighting.report,
            hit: sighting.hit,
        }
    }

    /// What becomes of the frame.
    pub fn class(&self) -> Class
        ensures { result ≡ self.now.class }
    {
        self.class
    }

    /// The VLAN in which it was admitted.
    pub fn vid(&self) -> Option<Vid>
        ensures { result ≡ self.now.vid }
    {
        self.vid
    }

    /// The chip's ports by which it leaves.
    pub fn ports(&self) -> Ports
        ensures { result ≡ self.now.ports }
    {
        self.ports
    }

    /// Those of them that it leaves without a tag.
    pub fn untagged(&self) -> Ports
        ensures { result ≡ self.now.untagged }
    {
        self.untagged
    }

    /// What the chip has learned of it, and is to tell.
    pub fn report(&self) -> Option<(Vid, Mac)>
        ensures { result ≡ self.now.report }
    {
        self.report
    }

    /// The entry that it shows to be in use.
    pub fn hit(&self) -> Option<(Vid, Mac)>
        ensures { result ≡ self.now.hit }
    {
        self.hit
    }
}
