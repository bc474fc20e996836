//! How often what comes.
ghost use Rattle.std.specs.Prelude.{◌<◌};

use crate::tests::common::assert_that;
use br_model::frame::{Class, Head};
use std::process::Abort;

/// How many times each class and each kind of frame came.
#[derive(Drop)]
pub(crate) struct Tally {
    classes: [u32; 4],
    // Frames to one station without and with a tag, then those to many.
    frames: [u32; 4],
}

/// The place of a kind of frame.
fn kind(head: &Head) -> usize
    ensures { result < 4 }
{
    match (head.dst.is_multicast(), head.tag.is_some()) {
        (false, false) => 0,
        (false, true) => 1,
        (true, false) => 2,
        (true, true) => 3,
    }
}

fn one_more(counts: &mut [u32; 4], place: usize)
    requires { place < 4 }
{
    counts[place] = counts[place].saturating_add(1);
}

impl Tally {
    pub(crate) fn first() -> Tally {
        Tally {
            classes: [0; 4],
            frames: [0; 4],
        }
    }

    pub(crate) fn count(&mut self, class: Class, head: &Head) {
        one_more(&mut self.classes, class as usize);
        one_more(&mut self.frames, kind(head));
    }

    /// Each comes often.
    pub(crate) fn assert_often(&self, rt: &impl Abort) {
        for count in self.classes {
            assert_that(rt, count > 500, "each class");
        }
        for count in self.frames {
            assert_that(rt, count > 500, "each kind of frame");
        }
    }
}
