//! The rule of the queue, which exists in proofs alone: what was taken, followed by what the queue holds, is what was posted.
use br_model::change::Update;
use br_model::parcel::Parcel;
use crossbeam_queue::protocol::{Join, Lesson, Outcome, Protocol, Split};
use crossbeam_queue::{Pass, RuledArrayQueue};
use std::collections::LinkedList;

/// What a pass may do, what it has posted and taken, and what it knows to lie ahead. No value of it is made.
pub struct Log {
    pub posts: bool,
    pub takes: bool,
    pub posted: LinkedList<Update>,
    pub taken: LinkedList<Update>,
    pub ahead: LinkedList<Update>,
}

pub(crate) struct InOrder;

impl Protocol<Parcel, Log> for InOrder {
    ghost use Rattle.std.specs.Prelude.{true, []};
    ghost use Rattle.deferred_queue.specs.Rule.{log, Carries};

    ghost holds = { Carries };

    ghost first = { log true true [] [] [] };
}

/// A pass that does both is cut in two: one posts, one takes. The second knows all that was posted.
pub(crate) struct TwoEnds;

impl Split<Log> for TwoEnds {
    ghost use Rattle.std.specs.Prelude.{drop, length};
    ghost use Rattle.deferred_queue.specs.Rule.{posting, taking};

    ghost left = { λ v. posting v.posted };

    ghost right = { λ v. taking v.taken (drop (length v.taken) v.posted) };
}

/// A pass leaves all that it has to a new one.
pub(crate) struct Whole;

impl Split<Log> for Whole {
    ghost use Rattle.deferred_queue.specs.Rule.{spent};

    ghost left = { λ _. spent };

    ghost right = { λ v. v };
}

/// A pass that posts takes in the one that takes.
pub(crate) struct Both;

impl Join<Log> for Both {
    ghost use Rattle.std.specs.Prelude.{true};
    ghost use Rattle.deferred_queue.specs.Rule.{log, spent};

    ghost both = { λ v w. log true true v.posted w.taken w.ahead };

    ghost spent = { spent };
}

pub(crate) struct Posted;

impl Outcome<Parcel, Log> for Posted {
    ghost use Rattle.std.specs.Prelude.{◌≡◌, [], ◌∷◌, ◌++◌};

    ghost then = { λ v x w. w ≡ record v { posted = v.posted ++ x ∷ [] } };
}

/// A full queue holds no more than was posted.
impl Lesson<Parcel, Log> for Posted {
    ghost use Rattle.std.specs.Prelude.{◌≤◌, length};

    ghost fact = { λ v items. length items ≤ length v.posted };
}

pub(crate) struct Taken;

impl Outcome<Parcel, Log> for Taken {
    ghost use Rattle.std.specs.Prelude.{◌≡◌, [], ◌∷◌, ◌++◌, drop, length};
    ghost use Rattle.deferred_queue.specs.Ends.{IsNext};

    ghost then = { λ v x w. (w ≡ record v { taken = v.taken ++ x ∷ []; ahead = drop 1 v.ahead }) × (x.ticket ≡ length v.taken) × IsNext v.ahead x };
}

/// An empty queue has nothing ahead.
impl Lesson<Parcel, Log> for Taken {
    ghost use Rattle.std.specs.Prelude.{◌≤◌, length};

    ghost fact = { λ v items. length v.ahead ≤ length items };
}

/// What was taken, followed by what the queue holds, is what was posted.
pub(crate) struct Total;

impl Lesson<Parcel, Log> for Total {
    ghost use Rattle.std.specs.Prelude.{◌≡◌, ◌++◌};

    ghost fact = { λ v items. v.posted ≡ v.taken ++ items };
}

pub(crate) type Line = RuledArrayQueue<Parcel, Log, InOrder>;

pub(crate) type Mark = Pass<Parcel, Log>;
