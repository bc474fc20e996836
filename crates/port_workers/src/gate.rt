//! Where a worker stops for a moment, so that a test can see who is there.

/// What a worker calls between the hold of a frame and its post.
pub trait Gate {
    /// The frame with this id is held. It may look, count or wait; it changes nothing of the run.
    fn held(&self, id: u32);
}

/// The gate of the program, which stops no one.
#[derive(Clone, Copy)]
pub struct Open;

impl Gate for Open {
    fn held(&self, _id: u32) {}
}
