//! Why workers stop before all is done, and who sees it.
use plane_core::PostFault;
use plane_lock::ActFault;
use std::alloc::AllocError;
use std::sync::atomic::{AtomicBool, Ordering};

/// Why a worker doesn't go on.
#[derive(Clone, Copy)]
pub(crate) enum Stop {
    NoMemory,
    /// A frame can't be posted: no lookup got a reading, or the plane doesn't know the frame or the decision.
    GivenUp,
}

impl From<AllocError> for Stop {
    fn from(_: AllocError) -> Stop {
        Stop::NoMemory
    }
}

impl From<ActFault> for Stop {
    fn from(fault: ActFault) -> Stop {
        match fault {
            ActFault::NoMemory | ActFault::Unpublished(_) => Stop::NoMemory,
        }
    }
}

impl From<PostFault> for Stop {
    fn from(fault: PostFault) -> Stop {
        match fault {
            PostFault::NoMemory(_) | PostFault::Unpublished(_) => Stop::NoMemory,
            PostFault::Stranger(_) | PostFault::Ahead { .. } => Stop::GivenUp,
        }
    }
}

/// What stopped the workers, for all of them to see. Want of memory is kept beside a run that is given up, and counts for more.
#[derive(Drop)]
pub(crate) struct Stops {
    is_starved: AtomicBool,
    is_given_up: AtomicBool,
}

impl Stops {
    pub(crate) fn new() -> Stops {
        Stops {
            is_starved: AtomicBool::new(false),
            is_given_up: AtomicBool::new(false),
        }
    }

    pub(crate) fn set(&self, stop: Stop) {
        match stop {
            Stop::NoMemory => self.is_starved.store(true, Ordering::SeqCst),
            Stop::GivenUp => self.is_given_up.store(true, Ordering::SeqCst),
        }
    }

    /// `None` while the workers go on.
    pub(crate) fn get(&self) -> Option<Stop> {
        if self.is_starved.load(Ordering::SeqCst) {
            Some(Stop::NoMemory)
        } else if self.is_given_up.load(Ordering::SeqCst) {
            Some(Stop::GivenUp)
        } else {
            None
        }
    }
}
