//! Where bytes go. Faults are counted, so that a caller's contract can say when one came.
ghost use Rattle.std.specs.Prelude.{◌≡◌, ℕ, ◌+◌, ◌-◌, ◌<◌, ◌≤◌, ◌↔◌, ◌++◌, min, List, [], None, Some, Ok, take, length, IfOk, OnOk, OnErr, IsErr, MatchResult};
ghost use Rattle.std.specs.declared.option.Option.{Option};
ghost use Rattle.std.specs.Io.{WritesAtMost};
ghost use Rattle.std.specs.Io.KnownBytes.{Appends, WriteAppends};
ghost use Rattle.run_io.specs.Causes.{HasCause, ZeroHasCause};
ghost use Rattle.run_io.specs.Memory.{OutMemory, Fails, next_call, one_more, faults_after};

use crate::NoMemory;
use crate::sources::Failed;
use std::alloc::Global;
use std::io::Write;
use std::marker::Model;
use thiserror::Error;

/// Not all of a piece was taken.
#[derive(Clone, Copy, Debug, Error)]
#[error("write fault")]
pub struct WriteFault;

/// What takes bytes: a writer, or memory. Contracts see the bytes that it took, where it tells them
/// (`MemSink` and a `Vec` do, a pipe or a file doesn't), and how many writes failed.
pub trait Sink {
    /// The bytes that were taken, where the sink tells them.
    ghost taken: { Self → Option (List ℕ) };

    /// How many writes have failed. It never falls.
    ghost faults: { Self → ℕ };

    /// Takes a prefix of the piece, and says how many bytes. To take none of a piece that has some is
    /// a fault, which is counted, but not an error.
    ///
    /// # Errors
    ///
    /// `Failed` where the write failed. It took nothing then.
    fn write(&mut self, from: &[u8]) -> Result<usize, Failed>
        ensures bound { WritesAtMost result from.now }
        ensures bytes { WriteAppends (taken self.old) (taken self.new) result from.now }
        ensures cause { HasCause (faults self.old) (faults self.new) result }
        ensures zero { ZeroHasCause (faults self.old) (faults self.new) result from.now };
}

/// Writes the whole piece, in as many writes as it needs. After a fault a prefix of it was taken, and not all of it.
///
/// # Errors
///
/// `WriteFault` where a write failed or took nothing.
pub fn put<K: Sink>(sink: &mut K, from: &[u8]) -> Result<(), WriteFault>
    ensures all { OnOk result (Appends (K.taken sink.old) (K.taken sink.new) from.now) }
    ensures prefix { OnErr result ((n : ℕ) × (n < length from.now) × Appends (K.taken sink.old) (K.taken sink.new) (take n from.now)) }
    ensures cause { HasCause (K.faults sink.old) (K.faults sink.new) result }
{
    let mut at = 0;
    while at < from.len() {
        match sink.write(&from[at..]) {
            Ok(0) => return Err(WriteFault),
            Ok(count) => at += count,
            Err(Failed) => return Err(WriteFault),
        }
    }
    Ok(())
}

/// A sink in memory. It fails at the calls whose numbers, counted from 1, are in a list.
#[derive(Drop)]
pub struct MemSink {
    bytes: Vec<u8>,
    room: u32,
    fails: Vec<u32>,
    calls: u32,
    faults: u64,
}

impl Model for MemSink {
    ghost use Rattle.std.specs.Prelude.{◌≤◌, length, vec_capacity};
    ghost use Rattle.run_io.specs.Memory.{OutMemory};

    ghost Value = { OutMemory };

    ghost view = { λ s. record { bytes = s.bytes.items; room = s.room; fails = s.fails.items; calls = s.calls; faults = s.faults } };

    ghost invariant = { λ s. (length s.bytes.items ≤ s.room) × (s.room ≤ vec_capacity s.bytes) };
}

impl MemSink {
    /// Takes memory for `room` bytes, and none later. The calls are numbered from 1, and their
    /// number stands still at `u32::MAX`.
    pub fn make(alloc: Global, room: u32, fails: Vec<u32>) -> Result<MemSink, NoMemory>
        ensures bytes { IfOk result (λ s. s.bytes ≡ []) }
        ensures room { IfOk result (λ s. s.room ≡ room) }
        ensures fails { IfOk result (λ s. s.fails ≡ fails.items) }
        ensures calls { IfOk result (λ s. s.calls ≡ 0) }
        ensures faults { IfOk result (λ s. s.faults ≡ 0) }
    {
        let bytes = Vec::with_capacity(alloc, room as usize)?;
        Ok(MemSink {
            bytes,
            room,
            fails,
            calls: 0,
            faults: 0,
        })
    }

    pub fn bytes(&self) -> &[u8]
        ensures { result.now ≡ self.now.bytes }
    {
        self.bytes.as_slice()
    }
}

impl Sink for MemSink {
    ghost taken = { λ s. Some s.bytes };

    ghost faults = { λ s. s.faults };

    fn write(&mut self, from: &[u8]) -> Result<usize, Failed>
        ensures bound { WritesAtMost result from.now }
        ensures bytes { WriteAppends (Some self.old.bytes) (Some self.new.bytes) result from.now }
        ensures cause { HasCause self.old.faults self.new.faults result }
        ensures zero { ZeroHasCause self.old.faults self.new.faults result from.now }
        ensures fails { IsErr result ↔ Fails self.old.fails self.old.calls }
        ensures calls { (self.new.fails ≡ self.old.fails) × (self.new.calls ≡ next_call self.old.calls) }
        ensures failed { OnErr result ((self.new.bytes ≡ self.old.bytes) × (self.new.faults ≡ one_more self.old.faults)) }
        ensures count { IfOk result (λ n. n ≡ min (length from.now) (self.old.room - length self.old.bytes)) }
        ensures took { IfOk result (λ n. (self.new.bytes ≡ self.old.bytes ++ take n from.now)
            × (self.new.faults ≡ faults_after self.old.faults n from.now)) }
        ensures room { self.new.room ≡ self.old.room }
    {
        self.calls = self.calls.saturating_add(1);
        if self.fails.contains(&self.calls) {
            self.faults = self.faults.saturating_add(1);
            return Err(Failed);
        }
        let room = self.room as usize - self.bytes.len();
        let count = from.len().min(room);
        if count == 0 && !from.is_empty() {
            self.faults = self.faults.saturating_add(1);
        }
        match self.bytes.extend_from_slice(&from[..count]) {
            Ok(()) => Ok(count),
            Err(_) => unreachable!(),
        }
    }
}

/// A sink over any writer.
#[derive(Drop)]
pub struct StdSink<T: Write> {
    to: T,
    faults: u64,
}

impl<T: Write + Drop> StdSink<T> {
    pub fn make(to: T) -> StdSink<T>
        ensures to { result.to ≡ to }
        ensures faults { result.faults ≡ 0 }
    {
        StdSink { to, faults: 0 }
    }
}

impl<T: Write> Sink for StdSink<T> {
    ghost taken = { λ s. T.contents s.to };

    ghost faults = { λ s. s.faults };

    fn write(&mut self, from: &[u8]) -> Result<usize, Failed>
        ensures bound { WritesAtMost result from.now }
        ensures bytes { WriteAppends (T.contents self.old.to) (T.contents self.new.to) result from.now }
        ensures cause { HasCause self.old.faults self.new.faults result }
        ensures zero { ZeroHasCause self.old.faults self.new.faults result from.now }
        ensures counts { MatchResult result (λ n. self.new.faults ≡ faults_after self.old.faults n from.now) (λ _. self.new.faults ≡ one_more self.old.faults) }
    {
        match self.to.write(from) {
            Ok(count) => {
                if count == 0 && !from.is_empty() {
                    self.faults = self.faults.saturating_add(1);
                }
                Ok(count)
            }
            Err(_) => {
                self.faults = self.faults.saturating_add(1);
                Err(Failed)
            }
        }
    }
}

/// A sink that takes each piece whole, keeps none and never fails: for what reads and writes
/// nothing.
#[derive(Clone, Copy)]
pub struct Nowhere;

impl Sink for Nowhere {
    ghost taken = { λ _. None };

    ghost faults = { λ _. 0 };

    fn write(&mut self, from: &[u8]) -> Result<usize, Failed>
        ensures bound { WritesAtMost result from.now }
        ensures bytes { WriteAppends None None result from.now }
        ensures cause { HasCause 0 0 result }
        ensures zero { ZeroHasCause 0 0 result from.now }
        ensures whole { result ≡ Ok (length from.now) }
    {
        Ok(from.len())
    }
}
