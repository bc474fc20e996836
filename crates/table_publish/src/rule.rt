//! The rule of what is published.
use crate::content::{Operation, Published};
use atomic_table::{Join, Split};
use crossbeam_utils::rule::{Outcome, Protocol};
use left_right::reader::Reader;
use left_right::writer::Writer;

/// Which book a seat knows, if any. No value of it is made.
pub struct View {
    pub named: bool,
    pub number: u64,
    pub log_name: u64,
    pub cells_name: u64,
}

/// What is published is the table of its book, and who knows a book knows this one.
pub struct Shows;

impl Protocol<Published, View> for Shows {
    ghost use Rattle.table_publish.specs.Rule.{Keeps, stranger};

    ghost holds = { λ p views. Keeps p views };

    ghost first = { stranger };
}

/// A step after which what is published is known.
pub struct See;

impl Outcome<Published, View> for See {
    ghost use Rattle.table_publish.specs.Rule.{Sees};

    ghost then = { Sees };
}

/// A step after which the book is known.
pub struct Naming;

impl Outcome<Published, View> for Naming {
    ghost use Rattle.table_publish.specs.Rule.{Names};

    ghost then = { Names };
}

/// What the writer tells a new seat, and what that learns: the book.
pub struct Note;

impl Split<View> for Note {
    ghost left = { λ v. v };

    ghost right = { λ v. v };
}

impl Join<View> for Note {
    ghost use Rattle.table_publish.specs.Rule.{stranger};

    ghost both = { λ v w. w };

    ghost spent = { stranger };
}

pub type TableReader = Reader<Published, View, Shows>;

pub type TableWriter = Writer<Published, Operation, View, Shows>;
