//! Frames that a worker holds. Each is decided by what the worker's chair reads, with no lock held.
ghost use Rattle.std.specs.Prelude.{◌≤◌, length, IfOk, IfSome};
ghost use Rattle.std.specs.List.{All};
ghost use Rattle.plane_lock.specs.Posts.{IsSeen};
ghost use Rattle.table_publish.specs.Object.{Begins};

use crate::NoMemory;
use crate::stop::Stop;
use ether_frames::parse;
use igmp_mld::classify;
use plane_core::Held;
use plane_lock::{Chair, Locked};
use port_workers::Gate;
use std::alloc::Global;
use std::sync::Wait;
use table_publish::{Name, Seen};

/// How often a frame is looked up at most.
const MOST_LOOKUPS: u32 = 64;

/// A held frame, and what was looked up for it.
#[derive(Drop)]
pub(crate) struct Looked {
    held: Held,
    seen: Seen,
}

/// The chair's decision of the frame. None where no lookup got a reading.
fn decide<N: Name>(chair: &mut Chair<N>, held: &Held) -> Option<Seen>
    requires { held.now.floor ≤ length chair.old.object.changes }
    ensures kept { Begins chair.new.object chair.old.object }
    ensures seen { IfSome result (IsSeen N.board.domains chair.new.object held.now) }
{
    let bytes = held.bytes.as_slice();
    // What waits is a frame.
    let head = parse(bytes).ok()?;
    let message = classify(bytes, &head);
    for _ in 0..MOST_LOOKUPS {
        let seen = chair.lookup(held.port, &head, &message);
        if seen.is_some() {
            return seen;
        }
    }
    None
}

/// Holds the oldest frames that wait, at most so many.
pub(crate) fn hold<N: Name>(
    alloc: Global,
    core: &mut Locked<N>,
    chair: &mut Chair<N>,
    most: usize,
) -> Result<Vec<Held>, NoMemory>
    ensures { IfOk result (λ all. All (λ h. h.floor ≤ length chair.new.object.changes) all.items) }
{
    let mut all = Vec::new(alloc);
    for _ in 0..most {
        all.reserve(1)?;
        let Some(held) = core.open_as(alloc, chair)? else {
            break;
        };
        all.push_reserved(held);
    }
    Ok(all)
}

/// Decides the frames, one after another.
pub(crate) fn look_up<N: Name, G: Gate>(
    alloc: Global,
    gate: &G,
    chair: &mut Chair<N>,
    frames: Vec<Held>,
) -> Result<Vec<Looked>, Stop>
    requires { All (λ h. h.floor ≤ length chair.old.object.changes) frames.items }
    ensures { IfOk result (λ all. All (λ x. IsSeen N.board.domains chair.new.object x.held x.seen) all.items) }
{
    let mut all = Vec::new(alloc);
    for held in frames {
        all.reserve(1)?;
        gate.held(held.id);
        chair.stands();
        let Some(seen) = decide(chair, &held) else {
            return Err(Stop::GivenUp);
        };
        all.push_reserved(Looked { held, seen });
    }
    Ok(all)
}

/// Posts the frames by what was looked up.
pub(crate) fn post<N: Name, R: Wait>(
    rt: &R,
    alloc: Global,
    core: &mut Locked<N>,
    chair: &mut Chair<N>,
    frames: Vec<Looked>,
) -> Result<(), Stop>
    requires { All (λ x. IsSeen N.board.domains chair.old.object x.held x.seen) frames.items }
{
    for Looked { held, seen } in frames {
        chair.stands();
        core.post_as(rt, alloc, chair, held, seen)?;
    }
    Ok(())
}
