//! How a run ends.
ghost use Rattle.std.specs.Prelude.{◌≡◌, ◌≢◌, ◌≤◌, ◌∷◌, ◌++◌, [], codes, string_bytes};
ghost use Rattle.std.specs.Io.KnownBytes.{Appends};
ghost use Rattle.run_io.specs.Causes.{Rose};
ghost use Rattle.run_status.specs.Writing.{Breaks};
ghost use Rattle.run_status.specs.Statuses.{status_code};

use run_io::output::Output;
use run_io::sinks::{Sink, put};

/// What a run answers. The program ends with its number: 0 to 7 in this order.
#[derive(Clone, Copy, Debug, PartialEq, Eq)]
pub enum Status {
    /// The scenario ends in a valid `end` line, or there is none to read.
    Ok,
    /// The transcript isn't what is told of its scenario.
    No,
    /// The words aren't in the grammar.
    Usage,
    /// A line isn't a line of the grammar in its place.
    BadLine,
    /// A read failed.
    ReadFault,
    /// A write failed, or took nothing.
    WriteFault,
    /// Want of memory.
    NoMemory,
    /// 2^28 bytes were taken, by `live` 2^22, and hold no bad line other than one that only lacks its end, nor, but for a check, a whole
    /// `end` line.
    TooLong,
}

impl Status {
    /// The number with which the program ends.
    pub fn code(self) -> u8
        ensures { result ≡ status_code self }
    {
        match self {
            Status::Ok => 0,
            Status::No => 1,
            Status::Usage => 2,
            Status::BadLine => 3,
            Status::ReadFault => 4,
            Status::WriteFault => 5,
            Status::NoMemory => 6,
            Status::TooLong => 7,
        }
    }
}

/// Writes this text, and ends so.
pub fn put_last<K: Sink>(sink: &mut K, last: &[u8], status: Status) -> Status
    ensures status { result ≢ Status.WriteFault → result ≡ status }
    ensures whole { result ≢ Status.WriteFault → Appends (K.taken sink.old) (K.taken sink.new) last.now }
    ensures front { result ≡ Status.WriteFault → status ≢ Status.WriteFault → Breaks (K.taken sink.old) (K.taken sink.new) last.now }
    ensures write { result ≡ Status.WriteFault → status ≢ Status.WriteFault → Rose (K.faults sink.old) (K.faults sink.new) }
    ensures later { K.faults sink.old ≤ K.faults sink.new }
{
    match put(sink, last) {
        Ok(()) => status,
        Err(_) => Status::WriteFault,
    }
}

/// Writes what the output holds and then this last line, and ends so.
pub fn end_with<K: Sink>(sink: &mut K, output: &mut Output, last: &[u8], status: Status) -> Status
    ensures status { result ≢ Status.WriteFault → result ≡ status }
    ensures whole { result ≢ Status.WriteFault → Appends (K.taken sink.old) (K.taken sink.new) (string_bytes output.old.text ++ last.now) }
    ensures front { result ≡ Status.WriteFault → status ≢ Status.WriteFault
        → Breaks (K.taken sink.old) (K.taken sink.new) (string_bytes output.old.text ++ last.now) }
    ensures write { result ≡ Status.WriteFault → status ≢ Status.WriteFault → Rose (K.faults sink.old) (K.faults sink.new) }
    ensures later { K.faults sink.old ≤ K.faults sink.new }
{
    match output.flush(sink) {
        Ok(()) => put_last(sink, last, status),
        Err(_) => Status::WriteFault,
    }
}

/// Ends for want of memory, with that line.
pub fn end_without_memory<K: Sink>(sink: &mut K) -> Status
    ensures status { result ≢ Status.WriteFault → result ≡ Status.NoMemory }
    ensures write { result ≡ Status.WriteFault → Rose (K.faults sink.old) (K.faults sink.new) }
    ensures whole { result ≢ Status.WriteFault → Appends (K.taken sink.old) (K.taken sink.new) (codes "no memory" ++ 10 ∷ []) }
    ensures front { result ≡ Status.WriteFault → Breaks (K.taken sink.old) (K.taken sink.new) (codes "no memory" ++ 10 ∷ []) }
{
    put_last(sink, b"no memory\n", Status::NoMemory)
}
