//! The book of all publications, which exists in proofs alone: its log only grows, and whoever has seen a beginning of it can
//! show so.
use crate::packed::Packed;
use br_model::change::Change;
use logbook::{Gain, Plain, Play, Rule, Seen, Word};
use std::collections::LinkedList;

/// The changes of one publication. No value of it is made.
pub type Batch = LinkedList<Change>;

/// The rule of the book.
pub struct Law;

impl Rule<Batch, u64> for Law {
    ghost use Rattle.std.specs.Prelude.{[]};
    ghost use base.Fml.{ftrue};
    ghost use Rattle.table_publish.specs.Law.{IsKept};

    ghost holds = { λ cells log. IsKept cells log };

    ghost first = { [] };

    ghost hinted = { λ n log. Unit {0} };

    ghost shows = { λ log. [] };

    ghost keeps = { λ names log. ftrue };

    ghost moves = { λ ask before after answer. Unit {0} };
}

/// Callers trade nothing.
pub struct Nothing;

impl Gain<Batch, u64> for Nothing {
    ghost use base.Fml.{ftrue};

    ghost after = { λ names about answer. ftrue };
}

/// A step that adds a batch.
pub struct Add;

impl Play<Batch, u64> for Add {
    ghost use Rattle.table_publish.specs.Law.{Adds};

    ghost then = { Adds };
}

impl Plain<Packed, Batch, u64> for Add {
    ghost use Rattle.std.specs.Prelude.{None};

    ghost ask = { λ changes. changes.list };

    ghost state = { λ changes. None };
}

/// What was seen of the book.
pub type Shown = Seen<Batch, u64, Law>;

/// How many publications the book has.
pub type Count = Word<Batch, u64, Law>;
