//! The lanes of steps: the frames of each port keep their order, and so do the ordered steps.
ghost use Rattle.std.specs.Prelude.{◌≡◌, ◌==◌, ◌&&◌, ◌<◌, ◌+◌, ℕ, true, false, length, slice_index_or, IfNone, IfSome, IfOk};
ghost use Rattle.std.specs.List.{list_all};
ghost use Rattle.br_model.specs.Program.LiveRun.{same_frames, same_order};
ghost use Rattle.live_book.specs.Lanes.{AreHeads, AreLinks, is_in_lane};

use crate::NoMemory;
use br_model::numbers::Port;
use br_model::steps::Step;
use std::alloc::Global;

/// One lane for the ordered steps, and one for the frames of each port.
const LANES: usize = Port::PLACES + 1;

/// The lane in which the step keeps its order, if it does.
fn lane_of(step: &Step) -> Option<usize>
    ensures within { IfSome result (λ lane. lane < LANES) }
    ensures lane { IfSome result (λ lane. (q : ℕ) → is_in_lane q step.now ≡ (q == lane)) }
    ensures none { IfNone result ((q : ℕ) → is_in_lane q step.now ≡ false) }
{
    match step {
        Step::Rx { port, .. } => Some(usize::from(port.number()) + 1),
        _ if step.is_ordered() => Some(0),
        _ => None,
    }
}

/// Links each step to the next one of its lane. `heads` gets the first step of each lane; where there is none, the length stands, as it
/// does everywhere before.
fn link(steps: &[Step], heads: &mut [usize], links: &mut [usize])
    requires lanes { length heads.old ≡ LANES }
    requires heads { (q : ℕ) → slice_index_or heads.old q (length steps.now) ≡ length steps.now }
    requires links { length links.old ≡ length steps.now }
    ensures lanes { length heads.new ≡ LANES }
    ensures count { length links.new ≡ length steps.now }
    ensures heads { AreHeads steps.now 0 heads.new }
    ensures links { AreLinks steps.now 0 links.new }
{
    let mut place = steps.len();
    while place > 0 {
        place -= 1;
        if let Some(lane) = lane_of(&steps[place]) {
            links[place] = heads[lane];
            heads[lane] = place;
        }
    }
}

/// Whether each lane has come to its end.
fn have_ended(heads: &[usize], end: usize) -> bool
    ensures { result ≡ list_all (λ place. place == end) heads.now }
{
    for head in heads {
        if *head != end {
            return false;
        }
    }
    true
}

/// Whether each lane has the same steps in both. `heads` are the places that the lanes of `given` have come to.
fn follow(later: &[Step], given: &[Step], heads: &mut [usize], links: &[usize]) -> bool
    requires lanes { length heads.old ≡ LANES }
    requires count { length links.now ≡ length given.now }
    requires heads { AreHeads given.now 0 heads.old }
    requires links { AreLinks given.now 0 links.now }
    ensures { result ≡ (same_frames later.now given.now && same_order later.now given.now) }
{
    for step in later {
        if let Some(lane) = lane_of(step) {
            let place = heads[lane];
            if place == given.len() || *step != given[place] {
                return false;
            }
            heads[lane] = links[place];
        }
    }
    have_ended(heads, given.len())
}

/// Whether each port has the same frames in both, in the same order, and the ordered steps are the same.
pub(crate) fn keep_order(alloc: Global, later: &[Step], given: &[Step]) -> Result<bool, NoMemory>
    ensures { IfOk result (λ same. same ≡ (same_frames later.now given.now && same_order later.now given.now)) }
{
    let mut heads = vec![in alloc; given.len(); LANES]?;
    let mut links = vec![in alloc; given.len(); given.len()]?;
    link(given, &mut heads, &mut links);
    Ok(follow(later, given, &mut heads, &links))
}
