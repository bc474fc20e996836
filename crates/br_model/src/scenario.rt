//! What the lines of a scenario are.
use crate::domains::Edition;
use crate::name::Name;
use crate::numbers::{Dom, Mac, Port};
use crate::steps::Step;

/// How far a scenario has come.
#[derive(Clone, Copy, PartialEq, Eq)]
pub enum Place {
    /// Before its first line.
    Opening,
    /// Directly after it.
    Header,
    /// Among the declarations of ports.
    Declarations,
    /// After the first step or capture.
    Steps,
}

/// Why a line is bad, by the first test that it fails, in this order: its length, its line feed, its words, its place, its
/// operands from left to right, and then its section: whether it is whole, and its blocks. The text of a transcript has these
/// words in lower case, `capture` with its offset, and never want of memory.
#[derive(Clone, Copy, PartialEq, Eq)]
pub enum LineWhy {
    /// It has more than 20,000 bytes without a line feed, whether one follows or not.
    Long,
    /// The input ends in this line, in its section or before it, and it isn't `end`.
    Unended,
    /// The words are of no form.
    Word,
    /// The form doesn't stand in its place.
    Place,
    /// A number isn't decimal, or isn't in its range.
    Number,
    /// A name isn't of its form; a port isn't declared, or is declared already; or `host` stands where it may not.
    Port,
    /// An address isn't of its form, or isn't one station's: it is multicast or all zeros.
    Address,
    /// Digits of bytes aren't of their form.
    Hex,
    /// The section's block at this place is broken, counted from the section's first byte.
    Capture(u32),
    /// There was no memory to read it. This is no cause of a bad line.
    NoMemory,
}

/// What the words of a line say.
#[derive(Drop)]
pub enum Said {
    /// Nothing: the line has no words, or is a comment.
    Blank,
    /// The first line.
    Opens(Edition),
    /// The bridge's own address.
    Bridge(Mac),
    /// The declaration of a port.
    Declares { port: Port, name: Name, dom: Dom },
    Does(Step),
    /// So many bytes of a capture follow its line feed: the line's section.
    Captures(u32),
    /// The last line.
    Ends,
}

/// What a line is, once its declarations are kept.
#[derive(Drop)]
pub enum Item {
    /// Without words, or a comment.
    Blank,
    /// The first line.
    Scenario(Edition),
    /// The bridge's own address.
    Bridge(Mac),
    /// The declaration of this port.
    Declared(Port),
    Step(Step),
    /// So many bytes of a capture follow.
    Capture(u32),
    /// The last line.
    End,
}
