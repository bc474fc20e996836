//! Text on its way to a sink, in large pieces.
ghost use Rattle.std.specs.Prelude.{◌≡◌, ℕ, ◌*◌, ◌<◌, ◌≤◌, ◌↔◌, [], length, take, IfOk, OnOk, OnErr, IsTrue};
ghost use Rattle.std.specs.String.{string_bytes, string_capacity, string_len};
ghost use Rattle.std.specs.Io.KnownBytes.{Appends};
ghost use Rattle.run_io.specs.Causes.{HasCause};
ghost use Rattle.run_io.specs.Writing.{full_length};

use crate::NoMemory;
use crate::sinks::{Sink, WriteFault, put};
use std::alloc::Global;

/// From how many bytes on an output is full.
const FULL: usize = 65_536;

/// Text that waits to be written. Write after what it holds, and flush it where it is full and
/// before a read that may wait.
#[derive(Drop)]
pub struct Output {
    pub text: String,
}

impl Output {
    /// Takes memory for twice what makes it full, so that a line over the edge needs no more.
    pub fn make(alloc: Global) -> Result<Output, NoMemory>
        ensures empty { IfOk result (λ output. string_bytes output.text ≡ []) }
        ensures room { IfOk result (λ output. 2 * full_length ≤ string_capacity output.text) }
    {
        let text = String::with_capacity(alloc, 2 * FULL)?;
        Ok(Output { text })
    }

    /// From 64 kB on: half of the memory that it has at first.
    pub fn is_full(&self) -> bool
        ensures { IsTrue result ↔ (full_length ≤ string_len self.now.text) }
    {
        self.text.len() >= FULL
    }

    /// Writes all that is held, and holds nothing then. After a fault it holds what it held, of which
    /// a prefix was written. Its memory stays.
    pub fn flush<K: Sink>(&mut self, sink: &mut K) -> Result<(), WriteFault>
        ensures all { OnOk result (Appends (K.taken sink.old) (K.taken sink.new) (string_bytes self.old.text)) }
        ensures empty { OnOk result (string_bytes self.new.text ≡ []) }
        ensures room { OnOk result (string_capacity self.old.text ≤ string_capacity self.new.text) }
        ensures prefix { OnErr result ((n : ℕ) × (n < length (string_bytes self.old.text))
            × Appends (K.taken sink.old) (K.taken sink.new) (take n (string_bytes self.old.text))) }
        ensures kept { OnErr result (self.new ≡ self.old) }
        ensures cause { HasCause (K.faults sink.old) (K.faults sink.new) result }
    {
        put(sink, self.text.as_bytes())?;
        self.text.clear();
        Ok(())
    }
}
