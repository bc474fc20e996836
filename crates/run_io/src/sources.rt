//! Where bytes come from. Faults are counted, so that a caller's contract can say when one came.
ghost use Rattle.std.specs.Prelude.{◌≡◌, ℕ, ◌+◌, ◌-◌, ◌<◌, ◌≤◌, ◌↔◌, ◌++◌, min, List, Some, take, drop, length, IfOk, OnErr, IsErr, MatchResult};
ghost use Rattle.std.specs.declared.option.Option.{Option};
ghost use Rattle.std.specs.Io.{ReadsAtMost};
ghost use Rattle.std.specs.Io.KnownBytes.{ReadConsumes};
ghost use Rattle.run_io.specs.Causes.{HasCause};
ghost use Rattle.run_io.specs.Memory.{InMemory, Fails, next_call, one_more};

use std::io::Read;
use std::marker::Model;
use thiserror::Error;

/// A read or a write failed. It moved no byte.
#[derive(Clone, Copy, Debug, PartialEq, Eq, Error)]
#[error("the transfer failed")]
pub struct Failed;

/// Where bytes come from: a reader, or memory. Contracts see the bytes that it has left, where it
/// tells them (`MemSource` and a slice do, a pipe or a file doesn't), and how many reads failed.
pub trait Source {
    /// The bytes that are left, where the source tells them.
    ghost left: { Self → Option (List ℕ) };

    /// How many reads have failed. It never falls.
    ghost faults: { Self → ℕ };

    /// Takes the next bytes of what is left, and says how many. 0 for a buffer that isn't empty is the
    /// end.
    ///
    /// # Errors
    ///
    /// `Failed` where the read failed. It took nothing then.
    fn read(&mut self, into: &mut [u8]) -> Result<usize, Failed>
        ensures bound { ReadsAtMost result into.new }
        ensures bytes { ReadConsumes (left self.old) (left self.new) result into.new }
        ensures cause { HasCause (faults self.old) (faults self.new) result };
}

/// A source over any reader.
#[derive(Drop)]
pub struct StdSource<T: Read> {
    from: T,
    faults: u64,
}

impl<T: Read + Drop> StdSource<T> {
    pub fn make(from: T) -> StdSource<T>
        ensures from { result.from ≡ from }
        ensures faults { result.faults ≡ 0 }
    {
        StdSource { from, faults: 0 }
    }
}

impl<T: Read> Source for StdSource<T> {
    ghost left = { λ s. T.remaining s.from };

    ghost faults = { λ s. s.faults };

    fn read(&mut self, into: &mut [u8]) -> Result<usize, Failed>
        ensures bound { ReadsAtMost result into.new }
        ensures bytes { ReadConsumes (T.remaining self.old.from) (T.remaining self.new.from) result into.new }
        ensures cause { HasCause self.old.faults self.new.faults result }
        ensures counts { MatchResult result (λ _. self.new.faults ≡ self.old.faults) (λ _. self.new.faults ≡ one_more self.old.faults) }
    {
        match self.from.read(into) {
            Ok(count) => Ok(count),
            Err(_) => {
                self.faults = self.faults.saturating_add(1);
                Err(Failed)
            }
        }
    }
}

/// A source over bytes in memory. It fails at the calls whose numbers, counted from 1, are in a list.
#[derive(Drop)]
pub struct MemSource {
    bytes: Vec<u8>,
    at: usize,
    fails: Vec<u32>,
    calls: u32,
    faults: u64,
}

impl Model for MemSource {
    ghost use Rattle.std.specs.Prelude.{◌≤◌, drop, length};
    ghost use Rattle.run_io.specs.Memory.{InMemory};

    ghost Value = { InMemory };

    ghost view = { λ s. record { left = drop s.at s.bytes.items; fails = s.fails.items; calls = s.calls; faults = s.faults } };

    ghost invariant = { λ s. s.at ≤ length s.bytes.items };
}

impl MemSource {
    /// The calls are numbered from 1, and their number stands still at `u32::MAX`.
    pub fn make(bytes: Vec<u8>, fails: Vec<u32>) -> MemSource
        ensures left { result.left ≡ bytes.items }
        ensures fails { result.fails ≡ fails.items }
        ensures calls { result.calls ≡ 0 }
        ensures faults { result.faults ≡ 0 }
    {
        MemSource {
            bytes,
            at: 0,
            fails,
            calls: 0,
            faults: 0,
        }
    }
}

impl Source for MemSource {
    ghost left = { λ s. Some s.left };

    ghost faults = { λ s. s.faults };

    fn read(&mut self, into: &mut [u8]) -> Result<usize, Failed>
        ensures bound { ReadsAtMost result into.new }
        ensures bytes { ReadConsumes (Some self.old.left) (Some self.new.left) result into.new }
        ensures cause { HasCause self.old.faults self.new.faults result }
        ensures fails { IsErr result ↔ Fails self.old.fails self.old.calls }
        ensures calls { (self.new.fails ≡ self.old.fails) × (self.new.calls ≡ next_call self.old.calls) }
        ensures failed { OnErr result ((self.new.left ≡ self.old.left) × (self.new.faults ≡ one_more self.old.faults) × (into.new ≡ into.old)) }
        ensures count { IfOk result (λ n. n ≡ min (length self.old.left) (length into.old)) }
        ensures given { IfOk result (λ n. (into.new ≡ take n self.old.left ++ drop n into.old) × (self.new.left ≡ drop n self.old.left)
            × (self.new.faults ≡ self.old.faults)) }
    {
        self.calls = self.calls.saturating_add(1);
        if self.fails.contains(&self.calls) {
            self.faults = self.faults.saturating_add(1);
            return Err(Failed);
        }
        let left = &self.bytes[self.at..];
        let count = left.len().min(into.len());
        into[..count].copy_from_slice(&left[..count]);
        self.at += count;
        Ok(count)
    }
}
